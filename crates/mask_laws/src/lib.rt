// Theorems only, about the calls of mask: EEA3 over a start and a mask, blocks in turn, clean mode as it was, a block masked once per hop.
#![tactic(auto)]
