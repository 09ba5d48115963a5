// No code: specs/ holds what the writer of settings, crate `lister`, writes, and proofs/ the theorems about it.

#![tactic(auto)]
