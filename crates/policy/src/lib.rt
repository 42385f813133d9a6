// Deriving: from an offer and an answer, and what was there before, to what a session holds, as the definitions of `flow` say.
#![tactic(auto)]

pub mod before;
mod class;
mod described;
pub mod exchange;
mod rate;
mod status;
mod status_table;
