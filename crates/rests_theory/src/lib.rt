// No code: how long a sluice rests between its moves, in specs/, and the theorems about it, in proofs/.

#![tactic(auto)]
