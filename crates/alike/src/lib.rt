// Theorems only: states that are equal in meaning get equal answers. specs/ says what that is, proofs/ why it is so.
#![tactic(auto)]
