// No code: this crate states and proves what holds of the lent array through every list of exported calls (specs/Arrays.antt), demand 3 among it.
#![tactic(auto)]
