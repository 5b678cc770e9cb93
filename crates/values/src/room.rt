// How much of a stream is used.
use crate::error::Stream;

/// A stream, how many of its entries are used, and how many it has.
#[derive(Clone, Copy, Debug, PartialEq, Eq)]
pub struct Room {
    pub stream: Stream,
    pub used: usize,
    pub space: usize,
}
