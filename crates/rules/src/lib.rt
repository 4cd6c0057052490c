// Definitions and laws only: see specs/Rules.antt and proofs/Laws.antt.
#![tactic(auto)]
