// No two starts alike (request 2026-11), of the arrays that C calls leave: theorems alone.
#![tactic(auto)]
