// Definitions and laws alone: directed graphs on the numbers below n.
#![tactic(auto)]
