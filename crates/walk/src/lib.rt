// A definition and its laws only: see specs/Walk.antt and proofs/Laws.antt.
#![tactic(auto)]
