// The lowest message on hand: of a session, and what a call hands up. Definitions in specs/, theorems in proofs/.
#![tactic(auto)]
