// The six calls on one row.
#![tactic(auto)]

mod change;
pub mod row;
