// Laws of reads and stores. There is no code here; specs/ states them and proofs/ proves them.

#![tactic(auto)]
