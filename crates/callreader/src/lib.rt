// The call file, read: what the definitions of `callfile` say of its bytes.
#![tactic(auto)]

pub mod call;
pub mod section;
