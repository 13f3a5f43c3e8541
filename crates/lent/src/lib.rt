// The rule that lends a list of things again to a call, out of a walk by hand. No function.
#![tactic(auto)]
