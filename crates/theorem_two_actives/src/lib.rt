// Two actives, one standby, on the code: the statement in specs/, its proof in proofs/. It speaks of what the contracts of `replica` promise.
#![tactic(auto)]
