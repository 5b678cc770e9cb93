// Segments as types of their own, so that what is generic over them is compiled for each.
ghost use Rattle.std.specs.Prelude.{◌≡◌};
ghost use Rattle.geometry.specs.declared.points.Segment.{Segment};
ghost use Rattle.geometry.specs.declared.points.Segment.TheVariants as Of;
ghost use Rattle.geometry.specs.Segments.{numbers_of, point_of, points_of, end_point, tangent_end, too_short, same_point, FinitePoint, FinitePoints, FiniteTangent};

use crate::extents::is_short;
use crate::points::Point;
use crate::tangents::{cubic_end, line_end, quad_end};
use std::num::f32_to_bits_with_nan;

/// The point of two numbers.
// A constructor, as the path calls are handed two numbers: a pair made for `From` would say no more.
pub fn point_of(x: f32, y: f32) -> Point
    ensures { result ≡ point_of x y }
{
    Point {
        x: f32_to_bits_with_nan(x),
        y: f32_to_bits_with_nan(y),
    }
}

/// Whether two points are the same, bit for bit.
// The name of the definition, for the derived equality.
pub fn is_same_point(p: Point, q: Point) -> bool
    ensures { result ≡ same_point p q }
{
    p == q
}

// Each kind takes the end of its tangent apart by `let .. else`, the form that the project has for it: passed on as an
// option to a method for all kinds, a line's tangent took 10.0 ns and not 7.0. Of quadratics and cubics the test for
// shortness is inlined, or their points are put into memory for it.
/// A segment past the point that it starts from.
pub trait Curve: Copy {
    ghost segment: { Self → Segment };

    /// Where it ends.
    fn end_point(self) -> Point
        ensures { result ≡ end_point (segment self) };

    /// Where its start tangent ends, if it is the first segment from `first`.
    fn tangent_end(self, first: Point) -> Option<Point>
        ensures value { result ≡ tangent_end first (segment self) }
        ensures finite { FinitePoint first → FinitePoints (points_of (segment self)) → FiniteTangent result };

    /// Whether it is too short to keep, from `last`.
    fn is_short(self, last: Point) -> bool
        ensures { result ≡ too_short last (segment self) };
}

/// A line to a point.
#[derive(Clone, Copy)]
pub struct Line(pub Point);

/// A quadratic by its control point and its end.
#[derive(Clone, Copy)]
pub struct Quad(pub Point, pub Point);

/// A cubic by its two control points and its end.
#[derive(Clone, Copy)]
pub struct Cubic(pub Point, pub Point, pub Point);

impl Curve for Line {
    ghost segment = { λ s. Of.Line s.0 };

    fn end_point(self) -> Point {
        let Line(p1) = self;
        p1
    }

    fn tangent_end(self, first: Point) -> Option<Point> {
        let Line(p1) = self;
        let Some((x, y)) = line_end(first.into(), p1.into()) else {
            return None;
        };
        Some(point_of(x, y))
    }

    fn is_short(self, last: Point) -> bool {
        let Line(p1) = self;
        is_short(last.into(), &[p1.into()])
    }
}

impl Curve for Quad {
    ghost segment = { λ s. Of.Quad s.0 s.1 };

    fn end_point(self) -> Point {
        let Quad(_, p2) = self;
        p2
    }

    fn tangent_end(self, first: Point) -> Option<Point> {
        let Quad(p1, p2) = self;
        let Some((x, y)) = quad_end(first.into(), p1.into(), p2.into()) else {
            return None;
        };
        Some(point_of(x, y))
    }

    #[inline(always)]
    fn is_short(self, last: Point) -> bool {
        let Quad(p1, p2) = self;
        is_short(last.into(), &[p1.into(), p2.into()])
    }
}

impl Curve for Cubic {
    ghost segment = { λ s. Of.Cubic s.0 s.1 s.2 };

    fn end_point(self) -> Point {
        let Cubic(_, _, p3) = self;
        p3
    }

    fn tangent_end(self, first: Point) -> Option<Point> {
        let Cubic(p1, p2, p3) = self;
        let Some((x, y)) = cubic_end(first.into(), p1.into(), p2.into(), p3.into()) else {
            return None;
        };
        Some(point_of(x, y))
    }

    #[inline(always)]
    fn is_short(self, last: Point) -> bool {
        let Cubic(p1, p2, p3) = self;
        is_short(last.into(), &[p1.into(), p2.into(), p3.into()])
    }
}
