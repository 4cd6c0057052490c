// Theorems only: see specs/Fields.antt and proofs/.
#![tactic(auto)]
