// What follows from the definitions of the model: the theorems in proofs/, and no code.
#![tactic(auto)]
