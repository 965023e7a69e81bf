// How tight the contracts are. There is no code here; specs/ has the useless programs and proofs/ rejects each.

#![tactic(auto)]
