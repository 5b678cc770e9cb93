// The calls on an open path, each declined, with nothing changed, where it lacks space.
ghost use Rattle.std.specs.Prelude.{◌≡◌, ℕ, List};
ghost use Rattle.monoid.specs.declared.path.PathTag.{PathTag};
ghost use Rattle.path.specs.declared.state.Call.TheVariants.{Take};
ghost use Rattle.path.specs.Rules.{fresh};
ghost use Rattle.path.specs.Theorems.{AfterAnySteps, OneEnd};
ghost use Rattle.path.specs.View.{lent, view};
ghost use Rattle.path.specs.Calls.{in_use, Answered, Ended};

use crate::open_path::OpenPath;
use crate::open_path::steps::{Admitted, PathStep};
use crate::state::{Call, Declined, Finished, PathState, Used};
use geometry::points::Point;
use monoid::path::PathTag;

impl OpenPath {
    /// Opens a path. What any list of steps from it comes to is stated here.
    pub fn new(is_fill: bool) -> OpenPath
        ensures opens { (ts : List PathTag) (ws : List ℕ) → view (lent result ts ws) ≡ fresh is_fill }
        ensures unused { in_use result ≡ record { tags = 0; words = 0 } }
        ensures amounts { AfterAnySteps is_fill }
        ensures one_end { OneEnd }
    {
        let origin = Point { x: 0, y: 0 };
        OpenPath {
            state: PathState::Start,
            moved: false,
            is_fill,
            first_point: origin,
            first_start_tangent_end: origin,
            tags: 0,
            words: 0,
        }
    }

    /// How many entries the path uses.
    pub fn used(&self) -> Used
        ensures { result ≡ in_use self.now }
    {
        Used {
            tags: self.tags,
            words: self.words,
        }
    }

    /// Takes a step.
    pub fn try_take<S: PathStep>(
        &mut self,
        tags: &mut [PathTag],
        words: &mut [u32],
        step: S,
    ) -> Result<(), Declined>
        ensures { Answered (Take (S.step step)) (lent self.old tags.old words.old) result (lent self.new tags.new words.new) }
    {
        self.admit(tags, words, step)?;
        step.take(self, tags, words, Admitted);
        Ok(())
    }

    /// Ends the path. A declined path is given back.
    pub fn try_finish(
        mut self,
        tags: &mut [PathTag],
        words: &mut [u32],
        insert_path_marker: bool,
    ) -> Result<Finished, (OpenPath, Declined)>
        ensures { Ended insert_path_marker (lent self tags.old words.old) result tags.new words.new }
    {
        if let Err(d) = self.admit_closely(tags, words, Call::Finish(insert_path_marker)) {
            return Err((self, d));
        }
        let segments = self.finish(tags, words, insert_path_marker);
        Ok(Finished {
            used: self.used(),
            segments,
        })
    }
}
