// Operands in the code: big_endian numbers of one, two and four bytes.
ghost use Rattle.std.specs.Prelude.{◌≡◌, ◌+◌, ◌<◌, ◌≤◌, leb, length};
ghost use Rattle.bytecode.specs.Operands.{big_endian, operand};

use errors::Refusal;

// Whether so many bytes stand in the code from a place on.
fn holds(length: usize, at: usize, size: usize) -> bool
    ensures { result ≡ leb (at + size) length }
{
    at <= length && size <= length - at
}

// Two bytes, the first one highest.
#[tactic(auto, using(crate::proofs::BigEndian::two))]
fn two_bytes(code: &[u8], at: usize) -> u32
    requires { at + 2 ≤ length code.now }
    ensures { (result ≡ big_endian 2 code.now at) × (result < 65536) }
{
    u32::from(u16::from_be_bytes([code[at], code[at + 1]]))
}

// Four bytes, the first one highest.
#[tactic(auto, using(crate::proofs::BigEndian::four_read))]
fn four_bytes(code: &[u8], at: usize) -> u32
    requires { at + 4 ≤ length code.now }
    ensures { result ≡ big_endian 4 code.now at }
{
    u32::from_be_bytes([code[at], code[at + 1], code[at + 2], code[at + 3]])
}

// The operand of one byte at a place.
#[tactic(auto, unfolding(crate::specs::Operands::operand), using(crate::proofs::BigEndian::one))]
pub fn prepare_u8(code: &[u8], at: usize) -> Result<u32, Refusal>
    ensures { result ≡ operand 1 code.now at }
{
    let byte = code.get(at).ok_or(Refusal::UnexpectedEOB)?;
    Ok(u32::from(*byte))
}

// The operand of two bytes at a place.
#[tactic(auto, unfolding(crate::specs::Operands::operand))]
pub fn prepare_u16_from_be_checked(code: &[u8], at: usize) -> Result<u32, Refusal>
    ensures { result ≡ operand 2 code.now at }
{
    if !holds(code.len(), at, 2) {
        return Err(Refusal::UnexpectedEOB);
    }
    Ok(two_bytes(code, at))
}

// The operand of four bytes at a place.
#[tactic(auto, unfolding(crate::specs::Operands::operand))]
pub fn prepare_u32_from_be_checked(code: &[u8], at: usize) -> Result<u32, Refusal>
    ensures { result ≡ operand 4 code.now at }
{
    if !holds(code.len(), at, 4) {
        return Err(Refusal::UnexpectedEOB);
    }
    Ok(four_bytes(code, at))
}
