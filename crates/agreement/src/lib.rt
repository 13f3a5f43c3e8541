// Demand 2: the machine answers as the Rust, step by step, run by run and from creation on. No function.
#![tactic(auto)]
