// Theorems only: what mac_laws says of runs of calls, of the C functions over their arrays.
#![tactic(auto)]
