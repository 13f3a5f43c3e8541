// Linear memory: allocation, change and reads of vectors; a vector's part, and whether it lies in the memory in use.
#![tactic(auto)]

pub mod allocation;
pub mod change;
pub mod reads;
pub mod tested_reads;
pub mod unbox;

// Which element of a vector: never a task's id, never a pool reference.
#[derive(Clone, Copy)]
pub struct ElementIndex(pub u32);
