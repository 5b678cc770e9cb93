// Where an open path stands, and the calls on it.
use geometry::points::{Point, Segment};

/// No subpath is open; one has its first point only; one has segments.
#[derive(Clone, Copy, PartialEq, Eq, Debug)]
pub enum PathState {
    Start,
    MoveTo,
    NonemptySubpath,
}

/// A call that draws.
#[derive(Clone, Copy, PartialEq, Eq, Debug)]
pub enum Step {
    Move(Point),
    Draw(Segment),
    Close,
}

/// A call on an open path: a step is taken, or the path is finished and its tag perhaps written.
#[derive(Clone, Copy, PartialEq, Eq, Debug)]
pub enum Call {
    Take(Step),
    Finish(bool),
}

// A path has these two streams alone, which a type of their own says; an Encoding has six.
/// The two streams that a path is written to, the lower first.
#[derive(Clone, Copy, PartialEq, Eq, Debug)]
pub enum Stream {
    PathTags,
    PathData,
}

// The reasons that a path can have: an Encoding has three more, and its streams.
/// Why a call was declined: a stream shorter than the entries in use, or with no space for what the call leaves.
#[derive(Clone, Copy, PartialEq, Eq, Debug)]
pub enum Declined {
    Short(Stream),
    Full(Stream),
}

/// How many entries of the two streams are in use.
#[derive(Clone, Copy, PartialEq, Eq, Debug)]
pub struct Used {
    pub tags: usize,
    pub words: usize,
}

/// What a finished path has in use, and the segments that it counted.
#[derive(Clone, Copy, PartialEq, Eq, Debug)]
pub struct Finished {
    pub used: Used,
    pub segments: usize,
}
