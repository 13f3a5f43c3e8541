// A machine between two runs: created, tested, read, saved.
#![tactic(auto)]

pub mod creating;
pub mod saving;
pub mod sound;
pub mod task_reading;
pub mod value_reading;
