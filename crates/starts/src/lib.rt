// No two starts alike (request 2026-11): theorems alone, about the states that calls of keystream, mask and mac leave behind a start.
#![tactic(auto)]
