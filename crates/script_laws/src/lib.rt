// No code: this crate states and proves what holds of every run of a script (specs/Runs.antt), demand 3 among it.
#![tactic(auto)]
