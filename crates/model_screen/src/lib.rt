// What a screen shows of a session, of a frame and of a refusal. Definitions in specs/, theorems in proofs/.
#![tactic(auto)]
