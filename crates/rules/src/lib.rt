// What is judged and looked up beside deriving, as the definitions of `flow` say: the fit of an answer to an offer, the gates of a component and
// where its packets go, a bearer.
#![tactic(auto)]

pub mod bearing;
pub mod fitting;
pub mod gating;
pub mod sending;
