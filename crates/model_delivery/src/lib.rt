// Demand 3: the board after any list of calls is the one worked out from the book. Definitions in specs/, theorems in proofs/; no programs.
#![tactic(auto)]
