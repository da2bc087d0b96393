// The model: definitions and worked cases in specs/, and no code.
#![tactic(auto)]
