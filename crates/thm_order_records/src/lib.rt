// Demand 3 carried over to rows of records. There is no code here; specs/ states it and proofs/ proves it.

#![tactic(auto)]
