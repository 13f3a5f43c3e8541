// Lines of text in a lent buffer: templates filled with numbers, and bytes as they are, escaped, in hex, or as numbers.
#![tactic(auto)]

mod escapes;
pub mod hex;
pub mod lines;
mod pieces;

// How bytes are shown: as they are, in hex, as numbers of 4 bytes with a space before each, as a template, or escaped: as UTF-8, or as ASCII alone.
#[derive(Clone, Copy)]
pub enum Form {
    Plain,
    Hex,
    Spaced,
    Filled,
    Escaped,
    Ascii,
}

// What putting a part in hex answers: how many characters, and the place of the next byte.
#[derive(Drop)]
pub struct HexPart {
    pub length: usize,
    pub next: usize,
}

// How a text is cut into pieces: numbers of 4 bytes, a template, or bytes that are escaped: as UTF-8, or as ASCII alone.
#[derive(Clone, Copy)]
enum Cut {
    Spaced,
    Filled,
    Escaped,
    Ascii,
}

// A piece of a text: a byte as it is or escaped, a number in decimal, or one with a space before it.
#[derive(Drop)]
enum Piece {
    Byte(u8),
    Escape(u8),
    Number(u64),
    Spaced(u64),
}

// The piece at the front of a text, and where the rest of it starts.
#[derive(Drop)]
struct Turn {
    piece: Piece,
    place: usize,
    used: usize,
}
