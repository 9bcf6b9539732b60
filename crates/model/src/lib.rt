// The model has no code: its definitions are in specs/, and their laws in proofs/.
#![tactic(auto)]
