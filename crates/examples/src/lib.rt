// What the contracts of the leaves say, computed on small inputs. No function.
#![tactic(auto)]
