// No code: this crate states and proves the recovery of the port (specs/Recovery.antt).
#![tactic(auto)]
