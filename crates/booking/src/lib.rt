// What rows book, whether their rates are in range, and what a look at all of them gathers of one row after the other.
#![tactic(auto)]

pub mod look;
pub mod pool;
pub mod slots;
pub mod sums;
