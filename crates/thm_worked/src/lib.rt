// The examples that document 01 marks P are definitions alone: specs/Worked.antt.

#![tactic(auto)]
