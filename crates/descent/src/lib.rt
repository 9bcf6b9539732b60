// One step down a fork and back has no code of its own: what it is about is in specs/, and its laws in proofs/.
#![tactic(auto)]
