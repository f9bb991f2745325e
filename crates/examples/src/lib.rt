// Proofs only: the examples of document 01, computed from the definitions.
#![tactic(auto)]
