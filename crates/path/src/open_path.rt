// One open path.
ghost use Rattle.std.specs.Prelude.{◌≤◌};
ghost use Rattle.path.specs.States.{by_state};

use crate::state::PathState;
use geometry::points::Point;

mod calls;
mod cycle;
mod space;
mod steps;

pub use crate::open_path::steps::{Close, Move, PathStep};

/// An open path, which writes to the entries that each call lends it, from their start on. It uses the first `tags`
/// tags and the first `words` words; the segments that it has counted are its tags.
#[derive(Drop)]
pub struct OpenPath {
    state: PathState,
    // Whether there was a first point. An open subpath has one, so an Option would be taken apart where it holds one.
    moved: bool,
    is_fill: bool,
    first_point: Point,
    first_start_tangent_end: Point,
    // Two fields and no `Used`, as each is set by itself, to what the write to its stream answers.
    tags: usize,
    words: usize,
    ghost holds_point: { by_state 0 2 2 state ≤ words },
    ghost holds_tag: { by_state 0 0 1 state ≤ tags },
}
