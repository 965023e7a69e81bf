// What ignoring the lowest bit of a tile number changes. There is no code here; specs/ states it and proofs/ proves it.

#![tactic(auto)]
