// No code: specs/ holds document 01's claims about whole lists of calls, proofs/ their proofs.
#![tactic(auto)]
