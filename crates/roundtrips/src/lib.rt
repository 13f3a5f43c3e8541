// Theorems of the image and the table: what is saved loads again, and what is loaded is saved again. No function.
#![tactic(auto)]
