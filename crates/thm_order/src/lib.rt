// Demand 3: the order of pixels over any number of draws. There is no code here; specs/ states it and proofs/ proves it.

#![tactic(auto)]
