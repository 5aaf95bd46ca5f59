// The claims about the exported calls, as hosts make them: definitions in specs/, proofs in proofs/.
#![tactic(auto)]
