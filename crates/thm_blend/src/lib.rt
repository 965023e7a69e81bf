// The laws for the blend. There is no code here; specs/ states them and proofs/ proves them.

#![tactic(auto)]
