// The readers of single lines: what the value of a `c=`, `b=` or `a=` line says, or its fault.
#![tactic(auto)]

pub mod bandwidth;
pub mod connection;
pub mod direction;
