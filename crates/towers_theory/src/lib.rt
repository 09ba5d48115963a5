// The theory of the disk engine: definitions, in specs/, of which the crate `towers` is the code, and theorems, in proofs/.

#![tactic(auto)]
