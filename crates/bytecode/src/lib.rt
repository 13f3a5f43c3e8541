// The code of a program: opcodes, what a read of an operand answers, and the extent of each instruction.
#![tactic(auto)]

pub mod extents;
pub mod opcodes;
pub mod operands;
