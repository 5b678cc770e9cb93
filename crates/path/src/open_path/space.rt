// The space that a call on an open path wants, before anything is changed.
ghost use Rattle.std.specs.Prelude.{◌≡◌, ◌-◌, ◌≤◌, ◌++◌, length, take};
ghost use Rattle.path.specs.declared.state.Call.TheVariants.{Take};
ghost use Rattle.path.specs.Rules.{call as call-rule};
ghost use Rattle.path.specs.Space.{used_by, lacks, roomy};
ghost use Rattle.path.specs.View.{lent, view, Held, Ready, Does};
ghost use Rattle.path.specs.Calls.{in_use, declined, said, needs};

use crate::open_path::OpenPath;
use crate::open_path::steps::{Admitted, PathStep};
use crate::state::{Call, Declined, Stream, Used};
use monoid::path::PathTag;

// The most that one call adds.
const MOST_TAGS: usize = 3;

const MOST_WORDS: usize = 8;

// Copies the last `k` entries to the front of `to`.
fn copy_last<T: Copy>(from: &[T], k: usize, to: &mut [T])
    requires { (k ≤ length from.now) × (k ≤ length to.old) }
    ensures { take (length from.now - k) from.now ++ take k to.new ≡ from.now }
{
    to[..k].copy_from_slice(&from[from.len() - k..]);
}

// The lowest stream of so many entries that the used ones pass.
fn lacking(used: Used, tags: usize, words: usize) -> Option<Stream>
    ensures { result ≡ lacks used tags words }
{
    if tags < used.tags {
        Some(Stream::PathTags)
    } else if words < used.words {
        Some(Stream::PathData)
    } else {
        None
    }
}

impl OpenPath {
    // Makes a call that there is space for. A call is data here, so a match makes it.
    fn run(&mut self, tags: &mut [PathTag], words: &mut [u32], call: Call)
        requires { Ready (call-rule call) (lent self.old tags.old words.old) }
        ensures { Does (call-rule call) (lent self.old tags.old words.old) (lent self.new tags.new words.new) }
    {
        match call {
            Call::Take(step) => step.take(self, tags, words, Admitted),
            Call::Finish(insert_path_marker) => {
                let _ = self.finish(tags, words, insert_path_marker);
            }
        }
    }

    // What a call leaves in use: the same call, made on a copy of the last entries.
    fn used_after(&self, tags: &[PathTag], words: &[u32], call: Call) -> Used
        requires { Held (lent self.now tags.now words.now) }
        ensures { result ≡ used_by (call-rule call (view (lent self.now tags.now words.now))) }
    {
        let t = self.tags.min(1);
        let w = self.words.min(2);
        let mut last_tags = [PathTag(0); MOST_TAGS + 1];
        let mut last_words = [0; MOST_WORDS + 2];
        copy_last(&tags[..self.tags], t, &mut last_tags);
        copy_last(&words[..self.words], w, &mut last_words);
        // A struct with ghost fields has no `..*self`, and if paths were Copy a finished one could be drawn on.
        let mut path = OpenPath {
            state: self.state,
            moved: self.moved,
            is_fill: self.is_fill,
            first_point: self.first_point,
            first_start_tangent_end: self.first_start_tangent_end,
            tags: t,
            words: w,
        };
        path.run(&mut last_tags, &mut last_words, call);
        Used {
            tags: self.tags - t + path.tags,
            words: self.words - w + path.words,
        }
    }

    /// What a call would leave in use, or the lowest stream that is shorter than what is in use.
    pub fn needs(&self, tags: &[PathTag], words: &[u32], call: Call) -> Result<Used, Declined>
        ensures { result ≡ needs call (lent self.now tags.now words.now) }
    {
        if let Some(s) = lacking(self.used(), tags.len(), words.len()) {
            return Err(Declined::Short(s));
        }
        Ok(self.used_after(tags, words, call))
    }

    // Whether the entries have space for what a call leaves.
    pub(super) fn admit_closely(
        &self,
        tags: &[PathTag],
        words: &[u32],
        call: Call,
    ) -> Result<(), Declined>
        ensures { result ≡ said (declined call (lent self.now tags.now words.now)) }
    {
        let used = self.needs(tags, words, call)?;
        match lacking(used, tags.len(), words.len()) {
            Some(s) => Err(Declined::Full(s)),
            None => Ok(()),
        }
    }

    // Whether so many entries have space for the most that a call adds.
    pub(super) fn is_roomy(&self, tags: usize, words: usize) -> bool
        ensures { result ≡ roomy (in_use self.now) tags words }
    {
        tags >= MOST_TAGS
            && self.tags <= tags - MOST_TAGS
            && words >= MOST_WORDS
            && self.words <= words - MOST_WORDS
    }

    // Whether a step can be taken, at once where there is space for any call.
    pub(super) fn admit<S: PathStep>(
        &self,
        tags: &[PathTag],
        words: &[u32],
        step: S,
    ) -> Result<(), Declined>
        ensures { result ≡ said (declined (Take (S.step step)) (lent self.now tags.now words.now)) }
    {
        if self.is_roomy(tags.len(), words.len()) {
            return Ok(());
        }
        self.admit_closely(tags, words, step.call())
    }
}
