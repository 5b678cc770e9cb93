// Paths worked through.
use crate::drawing::{FILL, STROKE, at, blank_tags, blank_words, tags_are, take_all, words_are};
use geometry::points::Segment;
use path::open_path::OpenPath;
use path::state::Step;
use path::worked::worked_paths;
use std::process::Abort;
use std::test::Fail;

const ONE: u32 = 0x3f80_0000;

const THREE: u32 = 0x4040_0000;

const FOUR: u32 = 0x4080_0000;

const EPSILON: u32 = 0x2b8c_bccc;

fn move_to(x: u32, y: u32) -> Step {
    Step::Move(at(x, y))
}

fn line_to(x: u32, y: u32) -> Step {
    Step::Draw(Segment::Line(at(x, y)))
}

// Draws and finishes a path: its entries and its count.
fn finished(
    rt: &impl Abort,
    is_fill: bool,
    steps: &[Step],
    insert_path_marker: bool,
    tags: &[u8],
    words: &[u32],
    segments: usize,
) -> Result<(), Fail> {
    let mut own_tags = blank_tags();
    let mut own_words = blank_words();
    let mut path = OpenPath::new(is_fill);
    assert!(rt; take_all(&mut path, &mut own_tags, &mut own_words, steps).is_ok());
    let Ok(f) = path.try_finish(&mut own_tags, &mut own_words, insert_path_marker) else {
        return Err(Fail::new("declined"));
    };
    assert!(rt; tags_are(&own_tags, f.used.tags, tags));
    assert!(rt; words_are(&own_words, f.used.words, words));
    assert!(rt; f.segments == segments);
    Ok(())
}

// Draws a path: its entries.
fn drawn(rt: &impl Abort, is_fill: bool, steps: &[Step], tags: &[u8], words: &[u32]) {
    let mut own_tags = blank_tags();
    let mut own_words = blank_words();
    let mut path = OpenPath::new(is_fill);
    assert!(rt; take_all(&mut path, &mut own_tags, &mut own_words, steps).is_ok());
    let used = path.used();
    assert!(rt; tags_are(&own_tags, used.tags, tags));
    assert!(rt; words_are(&own_words, used.words, words));
}

#[test]
fn fills(rt: HostRuntime) -> Result<(), Fail> {
    assert!(rt; worked_paths() == 7);
    let triangle = [move_to(0, 0), line_to(FOUR, 0), line_to(FOUR, THREE)];
    let corners = [0, 0, FOUR, 0, FOUR, THREE, 0, 0];
    finished(
        &rt,
        FILL,
        &triangle,
        true,
        &[0x09, 0x09, 0x0d, 0x10],
        &corners,
        3,
    )?;
    let reopened = [move_to(0, 0), Step::Close, line_to(FOUR, 0)];
    let back = [0, 0, FOUR, 0, 0, 0];
    finished(&rt, FILL, &reopened, true, &[0x09, 0x0d, 0x10], &back, 2)?;
    let zeros = [move_to(0, 0), line_to(ONE, 0), line_to(0x8000_0000, 0)];
    let both = [0, 0, ONE, 0, 0x8000_0000, 0, 0, 0];
    finished(&rt, FILL, &zeros, false, &[0x09, 0x09, 0x0d], &both, 3)
}

#[test]
fn strokes(rt: HostRuntime) -> Result<(), Fail> {
    let line = [move_to(0, 0), line_to(THREE, 0)];
    let marked = [0, 0, THREE, 0, 0, 0, ONE, 0];
    finished(&rt, STROKE, &line, true, &[0x09, 0x0e, 0x10], &marked, 2)?;
    let hairline = [move_to(0, 0), line_to(0x2c0c_bccc, 0), Step::Close];
    drawn(
        &rt,
        STROKE,
        &hairline,
        &[0x09, 0x0d],
        &[0, 0, 0x2c0c_bccc, 0, 0, 0],
    );
    Ok(())
}

#[test]
fn short_lines(rt: HostRuntime) {
    for is_fill in [FILL, STROKE] {
        drawn(
            &rt,
            is_fill,
            &[move_to(0, 0), line_to(EPSILON, 0)],
            &[],
            &[0, 0],
        );
        let kept = [move_to(0, 0), line_to(EPSILON + 1, 0)];
        drawn(&rt, is_fill, &kept, &[0x09], &[0, 0, EPSILON + 1, 0]);
    }
}

#[test]
fn nothing_drawn(rt: HostRuntime) -> Result<(), Fail> {
    for is_fill in [FILL, STROKE] {
        finished(&rt, is_fill, &[], true, &[], &[], 0)?;
        finished(&rt, is_fill, &[move_to(ONE, ONE)], true, &[], &[], 0)?;
        finished(
            &rt,
            is_fill,
            &[line_to(ONE, ONE), Step::Close],
            true,
            &[],
            &[],
            0,
        )?;
    }
    Ok(())
}
