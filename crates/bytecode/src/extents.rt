// How far an instruction reaches: its operands, by a table of their sizes, and the data behind them.
ghost use Rattle.std.specs.Prelude.{◌≡◌, ◌+◌, ◌<◌, length, get_or};
ghost use Rattle.bytecode.specs.Opcodes.{operand_size};
ghost use Rattle.bytecode.specs.Operands.{big_endian, data_size, reaching, extent, Follows, extent_by};

use crate::opcodes::*;
use slices::get_or;

// The table of operand sizes, to be lent to `extent_by`: a constant that is indexed is built anew at each call.
#[tactic(auto, using(crate::proofs::OperandRule::table_rule))]
pub fn operand_sizes() -> [u8; 256]
    ensures { Follows result }
{
    OPERAND_SIZES
}

// The two bytes behind an opcode as a size.
#[tactic(auto, using(crate::proofs::BigEndian::two_behind))]
fn size_behind(code: &[u8], at: usize) -> usize
    requires { at < length code.now }
    ensures { (result ≡ big_endian 2 code.now (at + 1)) × (result < 65536) }
{
    let size = u16::from_be_bytes([get_or(code, at + 1, 0), get_or(code, at + 2, 0)]);
    usize::from(size)
}

// How many bytes stand behind the operands of the instruction at a place.
#[tactic(auto, unfolding(crate::specs::Operands::data_size))]
fn data_size(code: &[u8], at: usize) -> usize
    requires { at < length code.now }
    ensures { (result ≡ data_size code.now at) × (result < 65536) }
{
    match code[at] {
        PUSH_CALLDATA => size_behind(code, at),
        M_STI if get_or(code, at + 4, 0) == 1 => size_behind(code, at),
        _ => 0,
    }
}

// How many bytes of operands follow an opcode, by the table. M_STI, M_ST and M_MUTA are told first: the table is built anew at each call, and a run of
// them would wait for it.
#[tactic(auto, unfolding(crate::specs::Opcodes::operand_size))]
fn operand_size(op: u8) -> usize
    ensures { (result ≡ operand_size op) × (result < 256) }
{
    match op {
        M_STI => 4,
        M_ST => 1,
        M_MUTA => 0,
        _ => {
            let sizes = operand_sizes();
            usize::from(sizes[usize::from(op)])
        }
    }
}

// The place behind an instruction with so many bytes of operands, or that the code's end cuts it.
#[tactic(auto, unfolding(crate::specs::Operands::reaching))]
fn reaching(code: &[u8], at: usize, operands: usize) -> Option<usize>
    requires { (at < length code.now) × (operands < 256) }
    ensures { result ≡ reaching code.now at operands }
{
    let next = at + 1 + operands + data_size(code, at);
    (next <= code.len()).then_some(next)
}

// The place behind the instruction at a place, or that the code's end cuts it.
#[tactic(auto, unfolding(crate::specs::Operands::extent, crate::specs::Operands::behind, crate::specs::Operands::reaching))]
pub fn extent(code: &[u8], at: usize) -> Option<usize>
    ensures { result ≡ extent code.now at }
{
    let op = *code.get(at)?;
    reaching(code, at, operand_size(op))
}

// The same, by a table of operand sizes.
#[tactic(auto, unfolding(crate::specs::Operands::extent_by, crate::specs::Operands::behind_by, crate::specs::Operands::reaching))]
pub fn extent_by(sizes: &[u8; 256], code: &[u8], at: usize) -> Option<usize>
    ensures { result ≡ extent_by sizes.now code.now at }
{
    let op = *code.get(at)?;
    reaching(code, at, usize::from(sizes[usize::from(op)]))
}
