// What the calls of a plan are handed and what they answer: transforms, styles, elements, the room of a stream, refusals.
#![tactic(auto)]

pub mod element;
pub mod error;
pub mod room;
pub mod setting;
pub mod style;
pub mod transform;
