// The limit per start (request 2026-09): theorems alone, about the calls of keystream and mac.
#![tactic(auto)]
