// Theorems only, about runs of the calls of mac: the rule, demand 3, the words drawn, which cuttings are accepted.
#![tactic(auto)]
