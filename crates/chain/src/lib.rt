// No code: demand 3 joined to what is outside the floor, the box calls in C with their frames, and drill files.
#![tactic(auto)]
