// Steps on an open path as types of their own, so that what is generic over them is compiled for each.
ghost use Rattle.std.specs.Prelude.{◌≡◌};
ghost use Rattle.geometry.specs.declared.points.Segment.TheVariants as Of;
ghost use Rattle.path.specs.declared.state.Step.{Step};
ghost use Rattle.path.specs.declared.state.Step.TheVariants as Took;
ghost use Rattle.path.specs.declared.state.Call.TheVariants.{Take};
ghost use Rattle.path.specs.Rules.{step as step-rule};
ghost use Rattle.path.specs.View.{lent, Ready, Does};

use crate::open_path::OpenPath;
use crate::state::{Call, Step};
use geometry::curves::{Cubic, Line, Quad};
use geometry::points::{Point, Segment};
use monoid::path::PathTag;

// Made in this crate alone, so that a step is taken by `try_take` only, once there is space for it.
#[derive(Clone, Copy)]
pub struct Admitted;

/// A step that an open path takes or declines. Each is a type, as an enum passed by value cost most of a line's time.
pub trait PathStep: Copy {
    ghost step: { Self → Step };

    /// The step as a call.
    fn call(self) -> Call
        ensures { result ≡ Take (step self) };

    /// Takes the step on a path that has space for it.
    fn take(self, path: &mut OpenPath, tags: &mut [PathTag], words: &mut [u32], admitted: Admitted)
        requires { Ready (step-rule (step self)) (lent path.old tags.old words.old) }
        ensures { Does (step-rule (step self)) (lent path.old tags.old words.old) (lent path.new tags.new words.new) };
}

/// A move to a point.
#[derive(Clone, Copy, PartialEq, Eq, Debug)]
pub struct Move(pub Point);

/// A close.
#[derive(Clone, Copy, PartialEq, Eq, Debug)]
pub struct Close;

impl PathStep for Move {
    ghost step = { λ s. Took.Move s.0 };

    fn call(self) -> Call {
        Call::Take(Step::Move(self.0))
    }

    fn take(self, path: &mut OpenPath, tags: &mut [PathTag], words: &mut [u32], _: Admitted) {
        path.move_to(tags, words, self.0);
    }
}

impl PathStep for Line {
    ghost step = { λ s. Took.Draw (Of.Line s.0) };

    fn call(self) -> Call {
        Call::Take(Step::Draw(Segment::Line(self.0)))
    }

    #[inline(always)]
    fn take(self, path: &mut OpenPath, tags: &mut [PathTag], words: &mut [u32], _: Admitted) {
        path.line_on(tags, words, self.0);
    }
}

impl PathStep for Quad {
    ghost step = { λ s. Took.Draw (Of.Quad s.0 s.1) };

    fn call(self) -> Call {
        Call::Take(Step::Draw(Segment::Quad(self.0, self.1)))
    }

    fn take(self, path: &mut OpenPath, tags: &mut [PathTag], words: &mut [u32], _: Admitted) {
        path.quad_to(tags, words, self.0, self.1);
    }
}

impl PathStep for Cubic {
    ghost step = { λ s. Took.Draw (Of.Cubic s.0 s.1 s.2) };

    fn call(self) -> Call {
        Call::Take(Step::Draw(Segment::Cubic(self.0, self.1, self.2)))
    }

    fn take(self, path: &mut OpenPath, tags: &mut [PathTag], words: &mut [u32], _: Admitted) {
        path.cubic_to(tags, words, self.0, self.1, self.2);
    }
}

impl PathStep for Close {
    ghost step = { λ _. Took.Close };

    fn call(self) -> Call {
        Call::Take(Step::Close)
    }

    fn take(self, path: &mut OpenPath, tags: &mut [PathTag], words: &mut [u32], _: Admitted) {
        path.close(tags, words);
    }
}

// A step as a value of one type: data, so a match finds its call.
impl PathStep for Step {
    ghost step = { λ s. s };

    fn call(self) -> Call {
        Call::Take(self)
    }

    fn take(self, path: &mut OpenPath, tags: &mut [PathTag], words: &mut [u32], _: Admitted) {
        match self {
            Step::Move(p) => path.move_to(tags, words, p),
            Step::Draw(Segment::Line(p)) => path.line_to(tags, words, p),
            Step::Draw(Segment::Quad(p, q)) => path.quad_to(tags, words, p, q),
            Step::Draw(Segment::Cubic(p, q, r)) => path.cubic_to(tags, words, p, q, r),
            Step::Close => path.close(tags, words),
        }
    }
}
