// No code: specs/ holds what a log is and what the calls of crate `movelog` answer, and proofs/ the theorems
// about it.

#![tactic(auto)]
