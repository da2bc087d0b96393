// Several layers of one map (02, R-14): the words and worked cases in specs/, the theorems in proofs/, and no code.
#![tactic(auto)]
