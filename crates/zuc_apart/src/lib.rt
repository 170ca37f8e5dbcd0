// States that differ stay apart (request 2026-11): theorems alone, about the loads, start-up and draws of the standard.
#![tactic(auto)]
