// Theorems alone: the listing that a host is given is the machine's listing (docs/REFERENCE.md, 'The listing'), whole or not at all.
#![tactic(auto)]
