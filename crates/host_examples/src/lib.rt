// The functions for a host, and the calls of a batch, computed on small inputs. No function.
#![tactic(auto)]
