// What a setting of crate rates means on the port with its clock (specs/): its three writes give it (Writes.antt), and with it P cycles are one cell
// (Cells.antt). No code.
#![tactic(auto)]
