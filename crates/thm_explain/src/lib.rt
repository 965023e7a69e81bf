// Why a column has its colour: which reason fits. There is no code here; specs/ states it and proofs/ proves it.

#![tactic(auto)]
