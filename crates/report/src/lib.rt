// The text of an answer: one line of ASCII for each verdict.
#![tactic(auto)]

mod text; // words, decimal numbers and hex, written on a line
pub mod line; // the line of a verdict
