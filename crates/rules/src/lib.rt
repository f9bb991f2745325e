// What an accepted rule strip is to the operations: its records as the builder takes them, the room that they take, the refusals for want of
// it, and its machines, built; and a tree strip's refusals beside it.
#![tactic(auto)]

mod decode; // the strip's records, as the builder takes them
pub mod build; // its machines, built, and the workspace cleared behind them
pub mod read; // what is read off the last one's machine
pub mod room; // what machines and strips take, and refusals 11 to 13
pub mod trees; // refusals 15 to 22
