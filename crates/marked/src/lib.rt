// The cases that 01 marks for proof: no code, one table of theorems in specs/examples/Table.antt.
#![tactic(auto)]
