// Stamps as numbers. Definitions in specs/, theorems in proofs/.
#![tactic(auto)]
