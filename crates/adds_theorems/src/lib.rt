// Adds on the cells: no code, the theorems stand in proofs/.
#![tactic(auto)]
