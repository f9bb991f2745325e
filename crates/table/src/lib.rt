// Tables of machines in lent bytes, and the successors of codes that they give.
#![tactic(auto)]

pub mod plan; // what is to be built of a record
mod atoms; // the atoms' tables
pub mod entries; // the entries of tables
pub mod rows; // the successors of a new code and those before it
