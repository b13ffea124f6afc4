// What holds of every direct call on the port with its clock (specs/): how it comes to calls on the port alone (Translate.antt), and by that the laws of
// these calls (Laws.antt) and demand 3 (Recovery.antt). No code.
#![tactic(auto)]
