// The words that `replay` prints around bytes in hex, into a lent buffer.
ghost use Rattle.std.specs.Prelude.{◌≡◌};
ghost use Rattle.report.specs.Reports.{text_of_word};
ghost use Rattle.text.specs.Lines.{lined, put_line};

use crate::Word;
use errors::Refusal;

// Bytes as they are at the buffer's start.
#[tactic(auto, unfolding(text::specs::Lines::put_line))]
fn put_bytes(out: &mut [u8], bytes: &[u8]) -> Result<usize, Refusal>
    ensures { lined result out.new ≡ put_line out.old bytes.now }
{
    if out.len() < bytes.len() {
        return Err(Refusal::SaveBufferTooShort);
    }
    slices::writes::write(out, bytes, 0);
    Ok(bytes.len())
}

// A word before bytes in hex, or the line feed behind them.
#[tactic(auto, unfolding(crate::specs::Reports::text_of_word, text::specs::Ascii::ascii))]
pub fn put_word(out: &mut [u8], word: Word) -> Result<usize, Refusal>
    ensures { lined result out.new ≡ put_line out.old (text_of_word word) }
{
    match word {
        Word::Memory => put_bytes(out, b"memory "),
        Word::Image => put_bytes(out, b"image "),
        Word::LineEnd => put_bytes(out, b"\n"),
    }
}
