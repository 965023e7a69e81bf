// Demand 1: each routine's number and what a refusal leaves. There is no code here; specs/ states it and proofs/ proves it.

#![tactic(auto)]
