// Demand 3 on the code, and one handle for a session: the statements in specs/, their proofs in proofs/. They speak of what the contracts of `replica` and `active` promise.
#![tactic(auto)]
