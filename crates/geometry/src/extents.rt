// Whether a segment is too short to keep. It is not if its end is far from its start, so the extent
// over all its points is worked out only for the others.
ghost use Rattle.std.specs.Prelude.{◌≡◌};
ghost use Rattle.std.specs.Float.Ieee.{sub, lt};
ghost use Rattle.std.specs.Float.{float_min, float_max, binary32};
ghost use Rattle.geometry.specs.Tangents.{epsilon};
ghost use Rattle.geometry.specs.Extents.{short, xs_of, ys_of, Extremes};

use crate::tangents::{EPSILON, is_far};

// The smallest and the greatest number so far.
#[derive(Clone, Copy)]
struct Extent {
    least: f32,
    greatest: f32,
}

impl Extent {
    fn at(x: f32) -> Extent
        ensures { result ≡ record { least = x; greatest = x } }
    {
        Extent {
            least: x,
            greatest: x,
        }
    }

    // With one more number. Written out, since the library's `min` and `max` leave open which of two
    // zeros they give.
    fn widened(self, x: f32) -> Extent
        ensures { result ≡ record { least = float_min self.least x; greatest = float_max self.greatest x } }
    {
        let Extent { least, greatest } = self;
        Extent {
            least: if least <= x || x.is_nan() { least } else { x },
            greatest: if x <= greatest || x.is_nan() {
                greatest
            } else {
                x
            },
        }
    }

    fn is_wide(self) -> bool
        ensures { result ≡ lt epsilon (sub binary32 self.greatest self.least) }
    {
        self.greatest - self.least > EPSILON
    }
}

/// Whether a segment from `p0` by the points `ps` is too short. Of a line the ends decide.
#[inline(always)]
pub fn is_short(p0: (f32, f32), ps: &[(f32, f32)]) -> bool
    ensures value { result ≡ short p0 ps.now }
    ensures in_x { Extremes p0.0 (xs_of ps.now) }
    ensures in_y { Extremes p0.1 (ys_of ps.now) }
{
    let [controls @ .., end] = ps else {
        return true;
    };
    if is_far(*end, p0) {
        return false;
    }
    if controls.is_empty() {
        return true;
    }
    let x = ps.iter().fold(Extent::at(p0.0), |e, p| e.widened(p.0));
    let y = ps.iter().fold(Extent::at(p0.1), |e, p| e.widened(p.1));
    !(x.is_wide() || y.is_wide())
}
