// Demand 3 over the calls exported to C, and what the numbers that they answer mean. No code.
#![tactic(auto)]
