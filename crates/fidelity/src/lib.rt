// Demand 3.
#![tactic(auto)]
