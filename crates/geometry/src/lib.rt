// The f32 geometry of paths: numbers, points, start tangents and segments too short to keep.
#![tactic(auto)]

pub mod curves;
pub mod extents;
pub mod numbers;
pub mod points;
pub mod tangents;
pub mod worked;
