// Simplices, facets, places and the curves through them: definitions in specs/, theorems in proofs/. There is no code here.

#![tactic(auto)]
