// Definitions and proofs only: the trials of request A6, and that what they keep clashes.
#![tactic(auto)]
