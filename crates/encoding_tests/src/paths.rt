// Path calls, by the space that they are lent.
use encoding::element::PathEl;
use encoding::encoding::Encoding;
use encoding::error::EncodeError::{self, FullStream as Full, NotFinite, ShortStream as Short};
use encoding::error::Stream::{PathData, PathTags};
use encoding::path_encoder::PathEncoder;
use monoid::path::PathTag;

const INFINITE: f32 = 1.0 / 0.0;

// How far a path has come: opened, moved to 0.0, 0.0, or with a line from there to 3.0, 0.0.
#[derive(Clone, Copy)]
enum Stage {
    Opened,
    Moved,
    Drawn,
}

// The table's stages are data, so a match makes the calls.
fn opened(is_fill: bool, stage: Stage, tags: &mut [PathTag], words: &mut [u32]) -> PathEncoder {
    let mut path = Encoding::new().encode_path(is_fill);
    match stage {
        Stage::Opened => path,
        Stage::Moved => {
            let _ = path.move_to(tags, words, 0.0, 0.0);
            path
        }
        Stage::Drawn => {
            let _ = path.move_to(tags, words, 0.0, 0.0);
            let _ = path.line_to(tags, words, 3.0, 0.0);
            path
        }
    }
}

// Elements that end at 1.0, 1.0, and those that end beyond every number.
const MOVE: PathEl = PathEl::MoveTo(1.0, 1.0);

const LINE: PathEl = PathEl::LineTo(1.0, 1.0);

const QUAD: PathEl = PathEl::QuadTo(2.0, 2.0, 1.0, 1.0);

const CUBIC: PathEl = PathEl::CurveTo(2.0, 2.0, 3.0, 3.0, 1.0, 1.0);

const FAR_MOVE: PathEl = PathEl::MoveTo(INFINITE, 1.0);

const FAR_LINE: PathEl = PathEl::LineTo(INFINITE, 1.0);

const FAR_QUAD: PathEl = PathEl::QuadTo(2.0, 2.0, INFINITE, 1.0);

const FAR_CUBIC: PathEl = PathEl::CurveTo(2.0, 2.0, 3.0, 3.0, INFINITE, 1.0);

// The element by the path call of its own, and not by `encode_element`. Elements are data, so a match makes the call.
fn taken(
    path: &mut PathEncoder,
    step: PathEl,
    tags: &mut [PathTag],
    words: &mut [u32],
) -> Result<(), EncodeError> {
    match step {
        PathEl::MoveTo(x, y) => path.move_to(tags, words, x, y),
        PathEl::LineTo(x, y) => path.line_to(tags, words, x, y),
        PathEl::QuadTo(x1, y1, x, y) => path.quad_to(tags, words, x1, y1, x, y),
        PathEl::CurveTo(x1, y1, x2, y2, x, y) => path.cubic_to(tags, words, x1, y1, x2, y2, x, y),
        PathEl::ClosePath => path.close(tags, words),
    }
}

// The step on a stroke, with so many path tags and words of path data.
fn stroked(stage: Stage, step: PathEl, tags: usize, words: usize) -> Result<(), EncodeError> {
    let mut path_tags = [PathTag(0); 4];
    let mut path_data = [0u32; 16];
    let mut path = opened(false, stage, &mut path_tags, &mut path_data);
    let tags = &mut path_tags[0..tags.min(4)];
    let words = &mut path_data[0..words.min(16)];
    let said = taken(&mut path, step, tags, words);
    let _ = path.abandon();
    said
}

// The stage, the step, path tags, words, and the answer.
const OPENED: [(Stage, PathEl, usize, usize, Result<(), EncodeError>); 8] = [
    (Stage::Opened, MOVE, 0, 2, Ok(())),
    (Stage::Opened, MOVE, 0, 1, Err(Full(PathData))),
    (Stage::Opened, FAR_MOVE, 0, 0, Err(NotFinite)),
    (Stage::Opened, LINE, 0, 2, Ok(())),
    (Stage::Opened, QUAD, 0, 1, Err(Full(PathData))),
    (Stage::Opened, CUBIC, 0, 2, Ok(())),
    (Stage::Opened, FAR_CUBIC, 0, 0, Err(NotFinite)),
    (Stage::Opened, PathEl::ClosePath, 0, 0, Ok(())),
];

// A segment wants a tag and its points; a move or a close takes the lone point back first.
const MOVED: [(Stage, PathEl, usize, usize, Result<(), EncodeError>); 21] = [
    (Stage::Moved, MOVE, 0, 2, Ok(())),
    (Stage::Moved, MOVE, 0, 1, Err(Short(PathData))),
    (Stage::Moved, FAR_MOVE, 0, 1, Err(Short(PathData))),
    (Stage::Moved, FAR_MOVE, 0, 2, Err(NotFinite)),
    (Stage::Moved, LINE, 1, 4, Ok(())),
    (Stage::Moved, LINE, 0, 4, Err(Full(PathTags))),
    (Stage::Moved, LINE, 1, 3, Err(Full(PathData))),
    (Stage::Moved, LINE, 0, 3, Err(Full(PathTags))),
    (Stage::Moved, FAR_LINE, 0, 2, Err(NotFinite)),
    (Stage::Moved, FAR_LINE, 0, 1, Err(Short(PathData))),
    (Stage::Moved, QUAD, 1, 6, Ok(())),
    (Stage::Moved, QUAD, 0, 6, Err(Full(PathTags))),
    (Stage::Moved, QUAD, 1, 5, Err(Full(PathData))),
    (Stage::Moved, QUAD, 0, 5, Err(Full(PathTags))),
    (Stage::Moved, FAR_QUAD, 0, 2, Err(NotFinite)),
    (Stage::Moved, CUBIC, 1, 8, Ok(())),
    (Stage::Moved, CUBIC, 0, 8, Err(Full(PathTags))),
    (Stage::Moved, CUBIC, 1, 7, Err(Full(PathData))),
    (Stage::Moved, CUBIC, 0, 7, Err(Full(PathTags))),
    (Stage::Moved, PathEl::ClosePath, 0, 2, Ok(())),
    (Stage::Moved, PathEl::ClosePath, 0, 1, Err(Short(PathData))),
];

// A stroke's close writes a line and a marker, a move an open marker and the point.
const DRAWN: [(Stage, PathEl, usize, usize, Result<(), EncodeError>); 14] = [
    (Stage::Drawn, PathEl::ClosePath, 3, 8, Ok(())),
    (Stage::Drawn, PathEl::ClosePath, 2, 8, Err(Full(PathTags))),
    (Stage::Drawn, PathEl::ClosePath, 3, 7, Err(Full(PathData))),
    (Stage::Drawn, PathEl::ClosePath, 2, 7, Err(Full(PathTags))),
    (Stage::Drawn, PathEl::ClosePath, 2, 5, Err(Full(PathTags))),
    (Stage::Drawn, PathEl::ClosePath, 0, 4, Err(Short(PathTags))),
    (Stage::Drawn, PathEl::ClosePath, 1, 3, Err(Short(PathData))),
    (Stage::Drawn, MOVE, 2, 10, Ok(())),
    (Stage::Drawn, MOVE, 1, 10, Err(Full(PathTags))),
    (Stage::Drawn, MOVE, 2, 9, Err(Full(PathData))),
    (Stage::Drawn, MOVE, 1, 9, Err(Full(PathTags))),
    (Stage::Drawn, LINE, 2, 6, Ok(())),
    (Stage::Drawn, FAR_QUAD, 0, 3, Err(Short(PathTags))),
    (Stage::Drawn, FAR_CUBIC, 1, 4, Err(NotFinite)),
];

#[test]
fn first_steps(rt: HostRuntime) {
    for (stage, step, tags, words, expected) in OPENED {
        assert_eq!(rt; stroked(stage, step, tags, words), expected);
    }
}

#[test]
fn steps_after_a_move(rt: HostRuntime) {
    for (stage, step, tags, words, expected) in MOVED {
        assert_eq!(rt; stroked(stage, step, tags, words), expected);
    }
}

#[test]
fn steps_after_a_line(rt: HostRuntime) {
    for (stage, step, tags, words, expected) in DRAWN {
        assert_eq!(rt; stroked(stage, step, tags, words), expected);
    }
}

// A finish: the count, or the refusal.
fn finished(
    is_fill: bool,
    stage: Stage,
    mark: bool,
    tags: usize,
    words: usize,
) -> Result<u32, EncodeError> {
    let mut path_tags = [PathTag(0); 4];
    let mut path_data = [0u32; 16];
    let path = opened(is_fill, stage, &mut path_tags, &mut path_data);
    let tags = &mut path_tags[0..tags.min(4)];
    let words = &mut path_data[0..words.min(16)];
    match path.finish(tags, words, mark) {
        Ok((_, count)) => Ok(count),
        Err((error, path)) => {
            let _ = path.abandon();
            Err(error)
        }
    }
}

// A fill or not, the stage, the path's tag or not, path tags, words, and the answer.
const FINISHES: [(bool, Stage, bool, usize, usize, Result<u32, EncodeError>); 15] = [
    (false, Stage::Drawn, true, 3, 8, Ok(2)),
    (false, Stage::Drawn, true, 2, 8, Err(Full(PathTags))),
    (false, Stage::Drawn, true, 3, 7, Err(Full(PathData))),
    (false, Stage::Drawn, true, 2, 7, Err(Full(PathTags))),
    (false, Stage::Drawn, false, 2, 8, Ok(2)),
    (false, Stage::Drawn, false, 1, 8, Err(Full(PathTags))),
    (false, Stage::Drawn, true, 0, 4, Err(Short(PathTags))),
    (false, Stage::Drawn, true, 1, 3, Err(Short(PathData))),
    (true, Stage::Drawn, true, 3, 6, Ok(2)),
    (true, Stage::Drawn, true, 2, 6, Err(Full(PathTags))),
    (true, Stage::Drawn, true, 3, 5, Err(Full(PathData))),
    (true, Stage::Drawn, false, 2, 6, Ok(2)),
    (true, Stage::Moved, true, 0, 2, Ok(0)),
    (true, Stage::Moved, true, 0, 1, Err(Short(PathData))),
    (false, Stage::Opened, true, 0, 0, Ok(0)),
];

#[test]
fn finishes(rt: HostRuntime) {
    for (is_fill, stage, mark, tags, words, expected) in FINISHES {
        assert_eq!(rt; finished(is_fill, stage, mark, tags, words), expected);
    }
}
