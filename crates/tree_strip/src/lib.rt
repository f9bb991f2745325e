// Tree strips: document 01, "Strips" and "Check a tree strip".
#![tactic(auto)]

pub mod check; // read and checked
pub mod numbers; // what C is told
pub mod write; // written from a tree's labels and ranks
