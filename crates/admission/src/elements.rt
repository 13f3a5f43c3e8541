// What an element of a program makes of the kinds, in code.

// A change of the kinds: so many are taken, then `low` and `top` are given as letters (0: nothing).
#[derive(Drop)]
pub struct Change {
    pub taken: usize,
    pub low: u32,
    pub top: u32,
}
