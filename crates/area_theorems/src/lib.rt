// Theorems on areas: the area as a function of its zones, and what a delivery does to it. No calls.
#![tactic(auto)]
