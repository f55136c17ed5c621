// No code: the claim of demand 3 on lists of steps (specs/), and its proof (proofs/).
#![tactic(auto)]
