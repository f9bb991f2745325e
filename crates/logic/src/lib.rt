// Specifications and proofs only: the meaning of WS2S, trees, machines, and the theorems about them.
#![tactic(auto)]
