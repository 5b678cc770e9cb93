// Elements of a path, and why a list of them is declined.
use crate::error::EncodeError;

/// One element of a path, with the coordinates of its points.
// Coordinates, as the path calls are handed them: points would be taken apart at once.
#[derive(Clone, Copy, Debug, PartialEq)]
pub enum PathEl {
    /// Another subpath begins at a point.
    MoveTo(f32, f32),
    /// A line to a point.
    LineTo(f32, f32),
    /// A quadratic by its control point and its end.
    QuadTo(f32, f32, f32, f32),
    /// A cubic by its control points and its end.
    CurveTo(f32, f32, f32, f32, f32, f32),
    /// The subpath is closed.
    ClosePath,
}

/// Why a list of elements was declined.
#[derive(Clone, Copy, Debug, PartialEq, Eq)]
pub struct ElementError {
    /// The refusal of the first step that was declined.
    pub error: EncodeError,
    /// The place of that element, or the number of elements if the path's finish was declined.
    pub index: usize,
}
