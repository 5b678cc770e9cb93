// Calls that lack space.
use crate::drawing::{FILL, STROKE, at, blank_tags, blank_words, make, take_all};
use geometry::points::Segment;
use monoid::path::PathTag;
use path::open_path::OpenPath;
use path::state::{Call, Declined, Step, Stream, Used};
use std::process::Abort;

const FOUR: u32 = 0x4080_0000;

// The answer that a call must get from so many entries: what is in use, then what the call leaves, the tags first.
fn expected(used: Used, after: Used, tags: usize, words: usize) -> Result<(), Declined> {
    if tags < used.tags {
        Err(Declined::Short(Stream::PathTags))
    } else if words < used.words {
        Err(Declined::Short(Stream::PathData))
    } else if tags < after.tags {
        Err(Declined::Full(Stream::PathTags))
    } else if words < after.words {
        Err(Declined::Full(Stream::PathData))
    } else {
        Ok(())
    }
}

// A path of a move and a line.
fn drawn(rt: &impl Abort, is_fill: bool, tags: &mut [PathTag], words: &mut [u32]) -> OpenPath {
    let mut path = OpenPath::new(is_fill);
    let steps = [Step::Move(at(0, 0)), Step::Draw(Segment::Line(at(FOUR, 0)))];
    assert!(rt; take_all(&mut path, tags, words, &steps).is_ok());
    path
}

// One call, lent some entries of which the first are as given: it gets the right answer, and declined changes nothing.
fn called(
    rt: &impl Abort,
    path: OpenPath,
    tags: &mut [PathTag],
    words: &mut [u32],
    given: (&[PathTag], &[u32]),
    call: Call,
    after: Used,
) {
    let used = path.used();
    let t = tags.len();
    let w = words.len();
    let needs = path.needs(tags, words, call);
    assert!(rt; needs == expected(used, used, t, w).map(|_| after));
    let answer = make(path, tags, words, call);
    assert!(rt; answer == expected(used, after, t, w).map(|_| after));
    if answer.is_err() {
        assert!(rt; given.0.starts_with(tags) && given.1.starts_with(words));
    }
}

// One call, lent the first so many entries.
fn lent(rt: &impl Abort, is_fill: bool, call: Call, after: Used, t: usize, w: usize) {
    let mut tags = blank_tags();
    let mut words = blank_words();
    let _ = drawn(rt, is_fill, &mut tags, &mut words);
    let mut own_tags = blank_tags();
    let mut own_words = blank_words();
    let path = drawn(rt, is_fill, &mut own_tags, &mut own_words);
    assert!(rt; t <= 16 && w <= 32);
    called(
        rt,
        path,
        &mut own_tags[0..t],
        &mut own_words[0..w],
        (&tags, &words),
        call,
        after,
    );
}

// The calls, and what each leaves in use of a fill and of a stroke.
fn calls() -> [(Call, Used, Used); 6] {
    let up = at(FOUR, FOUR);
    let left = at(0, FOUR);
    let quad = Segment::Quad(up, left);
    let cubic = Segment::Cubic(up, left, at(FOUR, 0));
    [
        (Call::Take(Step::Move(up)), uses(2, 8), uses(2, 10)),
        (
            Call::Take(Step::Draw(Segment::Line(up))),
            uses(2, 6),
            uses(2, 6),
        ),
        (Call::Take(Step::Draw(quad)), uses(2, 8), uses(2, 8)),
        (Call::Take(Step::Draw(cubic)), uses(2, 10), uses(2, 10)),
        (Call::Take(Step::Close), uses(2, 6), uses(3, 8)),
        (Call::Finish(true), uses(3, 6), uses(3, 8)),
    ]
}

fn uses(tags: usize, words: usize) -> Used {
    Used { tags, words }
}

#[test]
fn any_space(rt: HostRuntime) {
    for (call, of_fill, of_stroke) in calls() {
        for t in 0..6 {
            for w in 0..14 {
                lent(&rt, FILL, call, of_fill, t, w);
                lent(&rt, STROKE, call, of_stroke, t, w);
            }
        }
    }
}
