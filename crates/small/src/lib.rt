// The small bench cutter: what it takes and what it answers, definitions in specs/, theorems in proofs/. There is no code here.

#![tactic(auto)]
