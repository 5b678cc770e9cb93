// What a list of calls leaves in the streams.
#![tactic(auto)]

pub mod calls;
pub mod reader;
pub mod replay;
pub mod worked;
