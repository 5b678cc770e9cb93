// Encoding a plan into six streams.
#![tactic(auto)]

pub mod encoding;
pub mod path_encoder;
mod streams;

pub use values::{element, error, style, transform};
