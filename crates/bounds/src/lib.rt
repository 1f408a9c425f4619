// Demand 3: its statement in specs/, its proof in proofs/.
#![tactic(auto)]
