// Theorems only: what an admitted program is never refused for at run, and the kinds of the values that it leaves.
#![tactic(auto)]
