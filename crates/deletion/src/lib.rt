// No code: wish 6 of document 02, the steps of one department deleted from an accepted run.
#![tactic(auto)]
