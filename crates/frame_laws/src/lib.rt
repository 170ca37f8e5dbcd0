// Theorems only, about the calls of frame: when they are accepted, what is written is read and written again, one frame for its contents.
#![tactic(auto)]
