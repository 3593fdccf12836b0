// What a lent row of handles with its hold areas stands for: definitions in specs/, laws of its searches and stores in proofs/.
#![tactic(auto)]
