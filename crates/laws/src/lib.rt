// What a reader of the mission looks for in a run: the instructions that it finished, a refusal that leaves everything, fuel that adds up over runs and calls, and the living tasks counted. No function.
#![tactic(auto)]
