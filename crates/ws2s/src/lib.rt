// The library for C: both strip checks, judge, decide, clash, import and join, with their answers as numbers.
#![tactic(auto)]

pub mod exports; // the C interface
