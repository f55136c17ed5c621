// No code: boxes, rows and stations as a machine over any values, and its refinement to crate `protocol`, in specs/ and proofs/.
#![tactic(auto)]
