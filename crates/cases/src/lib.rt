// The cases C1 to C12 (docs/REFERENCE.md, 'Cases'), proved together as one table, each opcode on small programs, what the opcodes share in code, and the calls. No function.
#![tactic(auto)]
