// Bit fields, for the contracts of the other crates: definitions alone, in specs/Bits.antt.

#![tactic(auto)]
