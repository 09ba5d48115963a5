// No code: what the runs of both engines write, in specs/, and the theorems about it, in proofs/.

#![tactic(auto)]
