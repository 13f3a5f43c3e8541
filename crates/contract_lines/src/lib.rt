// The contract lines of functions that are slow to prove, said a second time, so that a weaker line is refused. No function.
#![tactic(auto)]
