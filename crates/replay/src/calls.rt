// The calls of a plan as values, and what they answer.
ghost use Rattle.std.specs.Prelude.{◌≡◌};
ghost use Rattle.replay.specs.declared.calls.Answer.TheVariants as Of;
ghost use Rattle.replay.specs.Runs.{answer_of, list_answer, done};

use encoding::encoding::Encoding;
use encoding::path_encoder::PathEncoder;
use values::element::{ElementError, PathEl};
use values::error::EncodeError;
use values::style::{Fill, Stroke};
use values::transform::Transform;

/// A call on a plan, with its arguments.
#[derive(Clone, Copy, Debug, PartialEq)]
pub enum Call<'a> {
    /// `reset`.
    Reset,
    /// `force_next_transform_and_style`.
    ForceNext,
    /// `encode_transform`.
    Transform(Transform),
    /// `encode_fill_style`.
    FillStyle(Fill),
    /// `encode_stroke_style`.
    StrokeStyle(Stroke),
    /// `encode_color`.
    Color(u32),
    /// `encode_blurred_rounded_rect`.
    BlurredRoundedRect {
        color: u32,
        width: f32,
        height: f32,
        radius: f32,
        std_dev: f32,
    },
    /// `encode_begin_clip`. Any two bytes are handed on, as the rules say.
    BeginClip {
        mix: u8,
        compose: u8,
        alpha: f32,
    },
    /// `encode_end_clip`.
    EndClip,
    /// `encode_empty_shape`.
    EmptyShape,
    /// `encode_path_elements`.
    PathElements {
        elements: &'a [PathEl],
        is_fill: bool,
    },
    /// `encode_path`, and whether the path is a fill.
    Path(bool),
    /// The path call of one element.
    Element(PathEl),
    /// `finish`, and whether the path's tag is written.
    Finish(bool),
    /// `abandon`.
    Abandon,
}

/// What a call answered.
// One enum: as an Option of a Result it would take two enums more, and say the same six cases.
#[derive(Clone, Copy, Debug, PartialEq, Eq)]
pub enum Answer {
    /// It was accepted.
    Done,
    /// It was accepted: whether a transform was written, a stroke's style taken, or a segment of a list counted.
    Said(bool),
    /// The path was finished with so many segments.
    Counted(u32),
    /// It was declined.
    Declined(EncodeError),
    /// The element list was declined at an element.
    DeclinedAt(ElementError),
    /// It cannot be made here, with a path open or with none open, and was passed over.
    NotNow,
}

// Three types of results, and each names its own case.
impl From<Result<(), EncodeError>> for Answer {
    ghost from_gives = { λ r a. a ≡ answer_of done r };

    fn from(res: Result<(), EncodeError>) -> Answer {
        res.map_or_else(Answer::Declined, |()| Answer::Done)
    }
}

impl From<Result<bool, EncodeError>> for Answer {
    ghost from_gives = { λ r a. a ≡ answer_of Of.Said r };

    fn from(res: Result<bool, EncodeError>) -> Answer {
        res.map_or_else(Answer::Declined, Answer::Said)
    }
}

impl From<Result<bool, ElementError>> for Answer {
    ghost from_gives = { λ r a. a ≡ list_answer r };

    fn from(res: Result<bool, ElementError>) -> Answer {
        res.map_or_else(Answer::DeclinedAt, Answer::Said)
    }
}

/// What is held between two calls.
pub enum Plan {
    /// No path is open.
    Closed(Encoding),
    /// A path is open.
    Open(PathEncoder),
}
