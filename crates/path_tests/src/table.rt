// Every state against every call, of a fill and of a stroke.
use crate::drawing::{FILL, STROKE, at, blank_tags, blank_words, tags_are};
use geometry::curves::Line;
use geometry::points::{Point, Segment};
use monoid::path::PathTag;
use path::open_path::{Close, Move, OpenPath};
use path::state::{Call, Declined, Step, Used};
use std::process::Abort;
use std::test::Fail;

// The state before the call: just opened; moved to 0,0 and closed; moved to 0,0; a line drawn from there to 3,0.
#[derive(Clone, Copy)]
pub enum Before {
    Opened,
    Closed,
    Moved,
    Drawn,
}

// The call: a move to 6,6; a line to 3,3; a quadratic by 3,3 to 0,3; a cubic by 3,3 and 6,3 to 6,0; and so on.
#[derive(Clone, Copy)]
pub enum Then {
    Move,
    Line,
    Quad,
    Cubic,
    Close,
    Finish,
}

// The tags and the words' numbers after the call, and those after a finish without the path's tag. Rows are tuples, as
// names in each of 48 rows would hide the table.
type Row = (
    bool,
    Before,
    Then,
    &'static [u8],
    &'static [u8],
    &'static [u8],
    &'static [u8],
);

const TABLE: [Row; 48] = [
    (FILL, Before::Opened, Then::Move, &[], &[6, 6], &[], &[]),
    (FILL, Before::Opened, Then::Line, &[], &[3, 3], &[], &[]),
    (FILL, Before::Opened, Then::Quad, &[], &[0, 3], &[], &[]),
    (FILL, Before::Opened, Then::Cubic, &[], &[6, 0], &[], &[]),
    (FILL, Before::Opened, Then::Close, &[], &[], &[], &[]),
    (FILL, Before::Opened, Then::Finish, &[], &[], &[], &[]),
    (FILL, Before::Closed, Then::Move, &[], &[6, 6], &[], &[]),
    (
        FILL,
        Before::Closed,
        Then::Line,
        &[0x09],
        &[0, 0, 3, 3],
        &[0x09, 0x0d],
        &[0, 0, 3, 3, 0, 0],
    ),
    (
        FILL,
        Before::Closed,
        Then::Quad,
        &[0x0a],
        &[0, 0, 3, 3, 0, 3],
        &[0x0a, 0x0d],
        &[0, 0, 3, 3, 0, 3, 0, 0],
    ),
    (
        FILL,
        Before::Closed,
        Then::Cubic,
        &[0x0b],
        &[0, 0, 3, 3, 6, 3, 6, 0],
        &[0x0b, 0x0d],
        &[0, 0, 3, 3, 6, 3, 6, 0, 0, 0],
    ),
    (FILL, Before::Closed, Then::Close, &[], &[], &[], &[]),
    (FILL, Before::Closed, Then::Finish, &[], &[], &[], &[]),
    (FILL, Before::Moved, Then::Move, &[], &[6, 6], &[], &[]),
    (
        FILL,
        Before::Moved,
        Then::Line,
        &[0x09],
        &[0, 0, 3, 3],
        &[0x09, 0x0d],
        &[0, 0, 3, 3, 0, 0],
    ),
    (
        FILL,
        Before::Moved,
        Then::Quad,
        &[0x0a],
        &[0, 0, 3, 3, 0, 3],
        &[0x0a, 0x0d],
        &[0, 0, 3, 3, 0, 3, 0, 0],
    ),
    (
        FILL,
        Before::Moved,
        Then::Cubic,
        &[0x0b],
        &[0, 0, 3, 3, 6, 3, 6, 0],
        &[0x0b, 0x0d],
        &[0, 0, 3, 3, 6, 3, 6, 0, 0, 0],
    ),
    (FILL, Before::Moved, Then::Close, &[], &[], &[], &[]),
    (FILL, Before::Moved, Then::Finish, &[], &[], &[], &[]),
    (
        FILL,
        Before::Drawn,
        Then::Move,
        &[0x09, 0x0d],
        &[0, 0, 3, 0, 0, 0, 6, 6],
        &[0x09, 0x0d],
        &[0, 0, 3, 0, 0, 0],
    ),
    (
        FILL,
        Before::Drawn,
        Then::Line,
        &[0x09, 0x09],
        &[0, 0, 3, 0, 3, 3],
        &[0x09, 0x09, 0x0d],
        &[0, 0, 3, 0, 3, 3, 0, 0],
    ),
    (
        FILL,
        Before::Drawn,
        Then::Quad,
        &[0x09, 0x0a],
        &[0, 0, 3, 0, 3, 3, 0, 3],
        &[0x09, 0x0a, 0x0d],
        &[0, 0, 3, 0, 3, 3, 0, 3, 0, 0],
    ),
    (
        FILL,
        Before::Drawn,
        Then::Cubic,
        &[0x09, 0x0b],
        &[0, 0, 3, 0, 3, 3, 6, 3, 6, 0],
        &[0x09, 0x0b, 0x0d],
        &[0, 0, 3, 0, 3, 3, 6, 3, 6, 0, 0, 0],
    ),
    (
        FILL,
        Before::Drawn,
        Then::Close,
        &[0x09, 0x0d],
        &[0, 0, 3, 0, 0, 0],
        &[0x09, 0x0d],
        &[0, 0, 3, 0, 0, 0],
    ),
    (
        FILL,
        Before::Drawn,
        Then::Finish,
        &[0x09, 0x0d, 0x10],
        &[0, 0, 3, 0, 0, 0],
        &[0x09, 0x0d, 0x10],
        &[0, 0, 3, 0, 0, 0],
    ),
    (STROKE, Before::Opened, Then::Move, &[], &[6, 6], &[], &[]),
    (STROKE, Before::Opened, Then::Line, &[], &[3, 3], &[], &[]),
    (STROKE, Before::Opened, Then::Quad, &[], &[0, 3], &[], &[]),
    (STROKE, Before::Opened, Then::Cubic, &[], &[6, 0], &[], &[]),
    (STROKE, Before::Opened, Then::Close, &[], &[], &[], &[]),
    (STROKE, Before::Opened, Then::Finish, &[], &[], &[], &[]),
    (STROKE, Before::Closed, Then::Move, &[], &[6, 6], &[], &[]),
    (
        STROKE,
        Before::Closed,
        Then::Line,
        &[0x09],
        &[0, 0, 3, 3],
        &[0x09, 0x0e],
        &[0, 0, 3, 3, 0, 0, 1, 1],
    ),
    (
        STROKE,
        Before::Closed,
        Then::Quad,
        &[0x0a],
        &[0, 0, 3, 3, 0, 3],
        &[0x0a, 0x0e],
        &[0, 0, 3, 3, 0, 3, 0, 0, 2, 2],
    ),
    (
        STROKE,
        Before::Closed,
        Then::Cubic,
        &[0x0b],
        &[0, 0, 3, 3, 6, 3, 6, 0],
        &[0x0b, 0x0e],
        &[0, 0, 3, 3, 6, 3, 6, 0, 0, 0, 3, 3],
    ),
    (STROKE, Before::Closed, Then::Close, &[], &[], &[], &[]),
    (STROKE, Before::Closed, Then::Finish, &[], &[], &[], &[]),
    (STROKE, Before::Moved, Then::Move, &[], &[6, 6], &[], &[]),
    (
        STROKE,
        Before::Moved,
        Then::Line,
        &[0x09],
        &[0, 0, 3, 3],
        &[0x09, 0x0e],
        &[0, 0, 3, 3, 0, 0, 1, 1],
    ),
    (
        STROKE,
        Before::Moved,
        Then::Quad,
        &[0x0a],
        &[0, 0, 3, 3, 0, 3],
        &[0x0a, 0x0e],
        &[0, 0, 3, 3, 0, 3, 0, 0, 2, 2],
    ),
    (
        STROKE,
        Before::Moved,
        Then::Cubic,
        &[0x0b],
        &[0, 0, 3, 3, 6, 3, 6, 0],
        &[0x0b, 0x0e],
        &[0, 0, 3, 3, 6, 3, 6, 0, 0, 0, 3, 3],
    ),
    (STROKE, Before::Moved, Then::Close, &[], &[], &[], &[]),
    (STROKE, Before::Moved, Then::Finish, &[], &[], &[], &[]),
    (
        STROKE,
        Before::Drawn,
        Then::Move,
        &[0x09, 0x0e],
        &[0, 0, 3, 0, 0, 0, 1, 0, 6, 6],
        &[0x09, 0x0e],
        &[0, 0, 3, 0, 0, 0, 1, 0],
    ),
    (
        STROKE,
        Before::Drawn,
        Then::Line,
        &[0x09, 0x09],
        &[0, 0, 3, 0, 3, 3],
        &[0x09, 0x09, 0x0e],
        &[0, 0, 3, 0, 3, 3, 0, 0, 1, 0],
    ),
    (
        STROKE,
        Before::Drawn,
        Then::Quad,
        &[0x09, 0x0a],
        &[0, 0, 3, 0, 3, 3, 0, 3],
        &[0x09, 0x0a, 0x0e],
        &[0, 0, 3, 0, 3, 3, 0, 3, 0, 0, 1, 0],
    ),
    (
        STROKE,
        Before::Drawn,
        Then::Cubic,
        &[0x09, 0x0b],
        &[0, 0, 3, 0, 3, 3, 6, 3, 6, 0],
        &[0x09, 0x0b, 0x0e],
        &[0, 0, 3, 0, 3, 3, 6, 3, 6, 0, 0, 0, 1, 0],
    ),
    (
        STROKE,
        Before::Drawn,
        Then::Close,
        &[0x09, 0x09, 0x0d],
        &[0, 0, 3, 0, 0, 0, 1, 0],
        &[0x09, 0x09, 0x0d],
        &[0, 0, 3, 0, 0, 0, 1, 0],
    ),
    (
        STROKE,
        Before::Drawn,
        Then::Finish,
        &[0x09, 0x0e, 0x10],
        &[0, 0, 3, 0, 0, 0, 1, 0],
        &[0x09, 0x0e, 0x10],
        &[0, 0, 3, 0, 0, 0, 1, 0],
    ),
];

// The pattern of a whole number of the table.
fn pattern(n: u8) -> u32 {
    match n {
        0 => 0,
        1 => 0x3f80_0000,
        2 => 0x4000_0000,
        3 => 0x4040_0000,
        _ => 0x40c0_0000,
    }
}

fn point(x: u8, y: u8) -> Point {
    at(pattern(x), pattern(y))
}

// Rows are data: a match brings a path to the state, and another makes the call.
fn brought_to(
    before: Before,
    path: &mut OpenPath,
    tags: &mut [PathTag],
    words: &mut [u32],
) -> Result<(), Declined> {
    match before {
        Before::Opened => Ok(()),
        Before::Closed => {
            path.try_take(tags, words, Move(point(0, 0)))?;
            path.try_take(tags, words, Close)
        }
        Before::Moved => path.try_take(tags, words, Move(point(0, 0))),
        Before::Drawn => {
            path.try_take(tags, words, Move(point(0, 0)))?;
            path.try_take(tags, words, Line(point(3, 0)))
        }
    }
}

fn call_of(then: Then) -> Call {
    match then {
        Then::Move => Call::Take(Step::Move(point(6, 6))),
        Then::Line => Call::Take(Step::Draw(Segment::Line(point(3, 3)))),
        Then::Quad => Call::Take(Step::Draw(Segment::Quad(point(3, 3), point(0, 3)))),
        Then::Cubic => Call::Take(Step::Draw(Segment::Cubic(
            point(3, 3),
            point(6, 3),
            point(6, 0),
        ))),
        Then::Close => Call::Take(Step::Close),
        Then::Finish => Call::Finish(true),
    }
}

fn entries_are(
    tags: &[PathTag],
    words: &[u32],
    used: Used,
    row_tags: &[u8],
    row_words: &[u8],
) -> bool {
    used.words == row_words.len()
        && used.words <= words.len()
        && words
            .iter()
            .zip(row_words)
            .all(|(word, n)| *word == pattern(*n))
        && tags_are(tags, used.tags, row_tags)
}

fn check_row(rt: &impl Abort, row: Row) -> Result<(), Fail> {
    let (is_fill, before, then, tags, words, ended_tags, ended_words) = row;
    let mut own_tags = blank_tags();
    let mut own_words = blank_words();
    let mut path = OpenPath::new(is_fill);
    assert!(rt; brought_to(before, &mut path, &mut own_tags, &mut own_words).is_ok());
    let mut insert_path_marker = true;
    if let Call::Take(step) = call_of(then) {
        assert!(rt; path.try_take(&mut own_tags, &mut own_words, step).is_ok());
        assert!(rt; entries_are(&own_tags, &own_words, path.used(), tags, words));
        insert_path_marker = false;
    }
    let Ok(f) = path.try_finish(&mut own_tags, &mut own_words, insert_path_marker) else {
        return Err(Fail::new("declined"));
    };
    assert!(rt; entries_are(&own_tags, &own_words, f.used, ended_tags, ended_words));
    Ok(())
}

#[test]
fn states_against_calls(rt: HostRuntime) -> Result<(), Fail> {
    for row in TABLE {
        check_row(&rt, row)?;
    }
    Ok(())
}
