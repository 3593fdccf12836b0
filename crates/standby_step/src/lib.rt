// What a call on the standby leaves and answers: definitions in specs/, and what follows from them for the lent row in proofs/.
#![tactic(auto)]
