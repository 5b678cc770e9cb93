ghost use Rattle.std.specs.Prelude.{◌≡◌};
ghost use Rattle.geometry.specs.Segments.{numbers_of};

use std::num::f32_from_bits_with_nan;

/// A point by the patterns of its two numbers.
#[derive(Clone, Copy, PartialEq, Eq, Debug)]
pub struct Point {
    pub x: u32,
    pub y: u32,
}

/// A segment by its points past the one it starts from.
#[derive(Clone, Copy, PartialEq, Eq, Debug)]
pub enum Segment {
    Line(Point),
    Quad(Point, Point),
    Cubic(Point, Point, Point),
}

/// The numbers that the patterns stand for.
impl From<Point> for (f32, f32) {
    ghost from_gives = { λ p r. r ≡ numbers_of p };

    fn from(p: Point) -> (f32, f32) {
        (f32_from_bits_with_nan(p.x), f32_from_bits_with_nan(p.y))
    }
}
