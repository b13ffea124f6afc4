// The laws of the direct calls (specs/Laws.antt), the manual's receive error table (specs/ReceiveErrors.antt) and document 01's figures (specs/Facts.antt),
// over port's definitions. No code.
#![tactic(auto)]
