// No code: the floor of panels, department by department, is the machine of crate `machine`.
#![tactic(auto)]
