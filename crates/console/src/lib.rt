// For the programs: what comes from standard input, and the answers to it on standard output.
#![tactic(auto)]

pub mod entries;
pub mod input;
pub mod out;
