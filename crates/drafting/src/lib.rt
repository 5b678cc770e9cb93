// A plan drawn from a list of calls.
#![tactic(auto)]

pub mod drawing;
pub mod room;
