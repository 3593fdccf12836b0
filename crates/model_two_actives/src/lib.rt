// Two actives, one standby. The statement in specs/, its proof in proofs/.
#![tactic(auto)]
