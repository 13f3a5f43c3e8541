// The line of a value, by its kind and the part beside it.
ghost use Rattle.std.specs.Prelude.{◌≡◌, []};
ghost use Rattle.text.specs.Lines.{said, lined, tell_line};
ghost use Rattle.text.specs.Numbers.{words};
ghost use Rattle.memory.specs.Unbox.{part_of};
ghost use Rattle.listing.specs.Listing.{line_of_bool, line_of_numbers, line_of_value};

use crate::say;
use errors::Refusal;
use memory::unbox::Return;
use text::Form;
use text::lines::tell_line;

// A line that holds no number.
#[tactic(auto, unfolding(text::specs::Lines::said))]
fn say_only(out: &mut [u8], writes: bool, template: &[u8]) -> Result<usize, Refusal>
    ensures { lined result out.new ≡ tell_line writes out.old (said template.now []) }
{
    tell_line(out, writes, template, &[], Form::Plain, b"")
}

// A bool.
#[tactic(auto, unfolding(crate::specs::Listing::line_of_bool, text::specs::Ascii::ascii))]
fn bool_line(out: &mut [u8], writes: bool, truth: bool) -> Result<usize, Refusal>
    ensures { lined result out.new ≡ tell_line writes out.old (line_of_bool truth) }
{
    if truth {
        say_only(out, writes, b"bool true")
    } else {
        say_only(out, writes, b"bool false")
    }
}

// Numbers of 4 bytes each.
#[tactic(auto, unfolding(text::specs::Ascii::ascii), using(crate::proofs::Forms::no_numbers, crate::proofs::Forms::some_numbers))]
fn numbers_line(out: &mut [u8], writes: bool, part: &[u8]) -> Result<usize, Refusal>
    ensures { lined result out.new ≡ tell_line writes out.old (line_of_numbers (words part.now)) }
{
    if part.len() < 4 {
        say_only(out, writes, b"vec ")
    } else {
        tell_line(out, writes, b"vec", &[], Form::Spaced, part)
    }
}

// A value by its kind and the part beside it.
#[tactic(auto, unfolding(crate::specs::Listing::line_of_value, text::specs::Ascii::ascii))]
fn read_line(
    out: &mut [u8],
    writes: bool,
    kind: Result<Return, Refusal>,
    part: &[u8],
) -> Result<usize, Refusal>
    ensures { lined result out.new ≡ tell_line writes out.old (line_of_value kind part.now) }
{
    match kind {
        Ok(Return::U32(number)) => say(out, writes, b"u32 #", number as u64),
        Ok(Return::Boolean(truth)) => bool_line(out, writes, truth),
        Ok(Return::String(_)) => tell_line(out, writes, b"text ", &[], Form::Escaped, part),
        Ok(Return::CallData(_)) => tell_line(out, writes, b"calldata ", &[], Form::Hex, part),
        Ok(Return::VecU32(_)) => numbers_line(out, writes, part),
        Ok(Return::Null) => say_only(out, writes, b"null"),
        Err(refusal) => say(out, writes, b"bad #", errors::number_of(refusal) as u64),
    }
}

// A value as it was read over the memory in use and the pool.
pub fn value_line(
    out: &mut [u8],
    memory: &[u8],
    pool: &[u8],
    ends: &[u32; 1024],
    writes: bool,
    kind: Result<Return, Refusal>,
) -> Result<usize, Refusal>
    ensures { lined result out.new ≡ tell_line writes out.old (line_of_value kind (part_of memory.now pool.now ends.now kind)) }
{
    let part = memory::unbox::part_of(memory, pool, ends, kind);
    read_line(out, writes, kind, part)
}
