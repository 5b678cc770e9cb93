// What draw tags do to the stack of open clips.
ghost use Rattle.std.specs.Prelude.{◌≡◌, ℕ, ◌+◌, ◌^◌, ◌<◌, [], length};
ghost use Rattle.monoid.specs.Clips.{Bic, bic_of, still, after, from_tag, Small};
ghost use Rattle.monoid.specs.Meeting.{latest, open_after, met_by, MeetsByReduction};
ghost use Rattle.monoid.specs.Kinds.{clip_laws, clip_fits};

use crate::draw::DrawTag;
use crate::{CountError, Monoid, sum};

/// Pops `a`, then pushes `b`: the bicyclic semigroup.
#[derive(Clone, Copy, Debug, PartialEq, Eq)]
#[repr(C)]
pub struct ClipBic {
    pub a: u32,
    pub b: u32,
}

impl Monoid for ClipBic {
    type SourceValue = DrawTag;

    ghost Meaning = { Bic };

    ghost meaning = { bic_of };

    ghost source = { from_tag };

    ghost empty = { still };

    ghost op = { after };

    ghost Fits = { Small };

    ghost monoid = { clip_laws };

    ghost few = { clip_fits };

    fn identity() -> ClipBic {
        ClipBic { a: 0, b: 0 }
    }

    fn new(tag: DrawTag) -> ClipBic {
        match tag {
            DrawTag::BEGIN_CLIP => ClipBic { a: 0, b: 1 },
            DrawTag::END_CLIP => ClipBic { a: 1, b: 0 },
            _ => ClipBic::identity(),
        }
    }

    // The pushes of this record and the pops of the other that meet cancel out first, so that no sum is larger than the
    // result.
    fn combine(&self, other: &ClipBic) -> Result<ClipBic, CountError> {
        let m = self.b.min(other.a);
        Ok(ClipBic {
            a: sum(self.a, other.a - m)?,
            b: sum(self.b - m, other.b)?,
        })
    }

    fn combine_fitting(&self, other: &ClipBic) -> ClipBic {
        let m = self.b.min(other.a);
        ClipBic {
            a: self.a + (other.a - m),
            b: (self.b - m) + other.b,
        }
    }
}

/// The place of the begin that the end at place `end` meets: none where no clip is open there, or no end is there.
pub fn begin_met(tags: &[DrawTag], end: usize) -> Option<usize>
    ensures met { result ≡ met_by tags.now end }
    ensures reduces { MeetsByReduction tags.now end result }
{
    if tags.get(end) == Some(&DrawTag::END_CLIP) {
        latest_open(&tags[..end])
    } else {
        None
    }
}

// The place of the latest begin that some tags leave open.
fn latest_open(tags: &[DrawTag]) -> Option<usize>
    ensures { result ≡ latest (open_after 0 [] tags.now) }
{
    let mut ended = 0usize;
    for (i, tag) in tags.iter().enumerate().rev() {
        match *tag {
            DrawTag::BEGIN_CLIP if ended == 0 => return Some(i),
            DrawTag::BEGIN_CLIP => ended -= 1,
            DrawTag::END_CLIP => ended += 1,
            _ => {}
        }
    }
    None
}
