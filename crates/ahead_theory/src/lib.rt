// The theory of the buffered engine: definitions, in specs/, of which the crate `ahead` is the code, and theorems, in proofs/.

#![tactic(auto)]
