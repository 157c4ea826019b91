// Demand 3 on closed passes: no code, only theorems.
#![tactic(auto)]
