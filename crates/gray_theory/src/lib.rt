// The theory of the reflected mixed-radix Gray code: definitions, in specs/, of which the crate `gray` is the code, and
// theorems, in proofs/.

#![tactic(auto)]
