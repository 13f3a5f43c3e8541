// The Rust as a definition: a spec file to a module of oracle/src, function by function under its own names, on lists and without the limits that this port adds. No function.
#![tactic(auto)]
