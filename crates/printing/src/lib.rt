// The lines of an evening's output, put into a lent buffer.
#![tactic(auto)]

pub mod answer;
