// Proofs only: the builder's machines are the logic's, and build and search together are the definition of decide.
#![tactic(auto)]
