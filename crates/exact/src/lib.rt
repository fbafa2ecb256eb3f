// Exact arithmetic over the whole numbers: definitions in specs/, laws in proofs/. There is no code here.

#![tactic(auto)]
