// The admission rules (docs/REFERENCE.md, 'Admission'): the kinds, the elements of a program, the labels, and when a program is admitted.
#![tactic(auto)]

// The kinds, whose letters are N, C, B, S and V.
#[derive(Clone, Copy)]
pub enum Kind {
    Number,
    Calldata,
    Boolean,
    Text,
    Numbers,
}

// What an element does to the kinds alone.
#[derive(Clone, Copy)]
pub enum Exchange {
    Unchanged,
    Adds(Kind),
    Takes(Kind),
    Turns { taken: Kind, given: Kind },
    Joins(Kind),
    Creates,
    Gets(Kind),
    Sets(Kind),
    Dup,
    Swap,
    Drop,
    Compares,
    Changes,
}

// An element by its rule.
#[derive(Clone, Copy)]
pub enum Element {
    NoRule,
    Kinds(Exchange),
    Do,
    Loop,
    LoopIndex,
    JumpIfFalse(usize),
}
