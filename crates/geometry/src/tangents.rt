// The ends of start tangents.
ghost use Rattle.std.specs.Prelude.{◌≡◌, false, T};
ghost use Rattle.std.specs.Float.Ieee.{lt};
ghost use Rattle.std.specs.Float.{float_is_finite, float_with_sign};
ghost use Rattle.geometry.specs.Tangents.{epsilon, apart, far, third_of, third_to, third_towards, line_end, quad_end, cubic_end, Finite, FiniteEnd};

/// Differences up to this one do not tell points apart.
pub const EPSILON: f32 = 1e-12;

// A number that is beyond epsilon where the size of `d` is. `abs` sees to the sign of a zero besides, in seven instructions
// and not four.
fn size(d: f32) -> f32
    ensures { lt epsilon result ≡ lt epsilon (float_with_sign false d) }
{
    if d < 0.0 { -d } else { d }
}

// Whether the size of the difference exceeds epsilon, with no branch on its sign.
fn is_apart(a: f32, b: f32) -> bool
    ensures { result ≡ apart a b }
{
    size(a - b) > EPSILON
}

/// Whether two points are far apart, in x or in y.
pub fn is_far(p: (f32, f32), q: (f32, f32)) -> bool
    ensures { result ≡ far p q }
{
    is_apart(p.0, q.0) | is_apart(p.1, q.1)
}

// A third of the difference, of each term by itself if the difference overflows.
fn third_of(a: f32, b: f32) -> f32
    ensures { result ≡ third_of a b }
{
    let t = 1.0f32 / 3.0f32;
    let d = a - b;
    if d.is_infinite() {
        t * a - t * b
    } else {
        t * d
    }
}

fn third_to(p: f32, q: f32) -> f32
    ensures value { result ≡ third_to p q }
    ensures number { T (float_is_finite p) → T (float_is_finite q) → T (float_is_finite result) }
{
    p + third_of(q, p)
}

fn third_towards(p: (f32, f32), q: (f32, f32)) -> (f32, f32)
    ensures value { result ≡ third_towards p q }
    ensures number { Finite p → Finite q → Finite result }
{
    (third_to(p.0, q.0), third_to(p.1, q.1))
}

// Three rules and not one at three sizes: only a cubic's end is one of its points.
/// The end of the start tangent of a line from `p0`.
pub fn line_end(p0: (f32, f32), p1: (f32, f32)) -> Option<(f32, f32)>
    ensures value { result ≡ line_end p0 p1 }
    ensures number { Finite p0 → Finite p1 → FiniteEnd result }
{
    if is_far(p1, p0) {
        Some(third_towards(p0, p1))
    } else {
        None
    }
}

/// The end of the start tangent of a quadratic from `p0`.
pub fn quad_end(p0: (f32, f32), p1: (f32, f32), p2: (f32, f32)) -> Option<(f32, f32)>
    ensures value { result ≡ quad_end p0 p1 p2 }
    ensures number { Finite p0 → Finite p1 → Finite p2 → FiniteEnd result }
{
    if is_far(p1, p0) {
        Some(third_towards(p1, p0))
    } else if is_far(p2, p0) {
        Some(third_towards(p1, p2))
    } else {
        None
    }
}

/// The end of the start tangent of a cubic from `p0`: its first point that is far from there.
pub fn cubic_end(
    p0: (f32, f32),
    p1: (f32, f32),
    p2: (f32, f32),
    p3: (f32, f32),
) -> Option<(f32, f32)>
    ensures value { result ≡ cubic_end p0 p1 p2 p3 }
    ensures number { Finite p1 → Finite p2 → Finite p3 → FiniteEnd result }
{
    if is_far(p1, p0) {
        Some(p1)
    } else if is_far(p2, p0) {
        Some(p2)
    } else if is_far(p3, p0) {
        Some(p3)
    } else {
        None
    }
}
