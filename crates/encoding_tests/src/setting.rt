// Transforms and styles, by the space that they are lent.
use encoding::encoding::Encoding;
use encoding::error::EncodeError::{
    self, FullStream as Full, NotFinite, ShortStream as Short, ZeroWidth,
};
use encoding::error::Stream::{PathTags, Styles, Transforms};
use encoding::style::{Cap, Fill, Join, Stroke, Style};
use encoding::transform::Transform;
use monoid::path::PathTag;

const INFINITE: f32 = 1.0 / 0.0;

fn scaled(x: f32) -> Transform {
    Transform {
        matrix: [1.0, 0.0, 0.0, 1.0],
        translation: [x, 0.0],
    }
}

// A transform by `x`, first or after one by 0.0, perhaps forced, with so many path tags and transforms.
fn moved(
    first: bool,
    forced: bool,
    x: f32,
    tags: usize,
    entries: usize,
) -> Result<bool, EncodeError> {
    let mut path_tags = [PathTag(0); 4];
    let mut transforms = [scaled(0.0); 4];
    let mut encoding = Encoding::new();
    if !first {
        let _ = encoding.encode_transform(&mut path_tags, &mut transforms, scaled(0.0));
    }
    if forced {
        encoding.force_next_transform_and_style();
    }
    let tags = &mut path_tags[0..tags.min(4)];
    let entries = &mut transforms[0..entries.min(4)];
    encoding.encode_transform(tags, entries, scaled(x))
}

// First or not, forced or not, by how much, path tags, transforms, and the answer.
const TRANSFORMS: [(bool, bool, f32, usize, usize, Result<bool, EncodeError>); 15] = [
    (true, false, 0.0, 1, 1, Ok(true)),
    (true, false, 0.0, 0, 1, Err(Full(PathTags))),
    (true, false, 0.0, 1, 0, Err(Full(Transforms))),
    (true, false, 0.0, 0, 0, Err(Full(PathTags))),
    (true, false, INFINITE, 0, 0, Err(NotFinite)),
    (false, false, 0.0, 1, 1, Ok(false)),
    (false, false, -0.0, 1, 1, Ok(false)),
    (false, true, 0.0, 1, 1, Err(Full(PathTags))),
    (false, true, 0.0, 2, 2, Ok(true)),
    (false, false, 1.0, 2, 2, Ok(true)),
    (false, false, 1.0, 2, 1, Err(Full(Transforms))),
    (false, false, 0.0, 0, 1, Err(Short(PathTags))),
    (false, false, 0.0, 1, 0, Err(Short(Transforms))),
    (false, false, INFINITE, 0, 0, Err(Short(PathTags))),
    (false, false, INFINITE, 1, 1, Err(NotFinite)),
];

#[test]
fn transforms(rt: HostRuntime) {
    for (first, forced, x, tags, entries, expected) in TRANSFORMS {
        assert_eq!(rt; moved(first, forced, x, tags, entries), expected);
    }
}

// An even-odd fill, first or after a fill of either kind, with so many path tags and styles.
fn filled(
    before: Option<Fill>,
    forced: bool,
    tags: usize,
    entries: usize,
) -> Result<(), EncodeError> {
    let mut path_tags = [PathTag(0); 4];
    let mut styles = [Style::from_fill(Fill::NonZero); 4];
    let mut encoding = Encoding::new();
    if let Some(fill) = before {
        let _ = encoding.encode_fill_style(&mut path_tags, &mut styles, fill);
    }
    if forced {
        encoding.force_next_transform_and_style();
    }
    let tags = &mut path_tags[0..tags.min(4)];
    let entries = &mut styles[0..entries.min(4)];
    encoding.encode_fill_style(tags, entries, Fill::EvenOdd)
}

// The fill before, forced or not, path tags, styles, and the answer.
const FILLS: [(Option<Fill>, bool, usize, usize, Result<(), EncodeError>); 11] = [
    (None, false, 1, 1, Ok(())),
    (None, false, 0, 1, Err(Full(PathTags))),
    (None, false, 1, 0, Err(Full(Styles))),
    (None, false, 0, 0, Err(Full(PathTags))),
    (Some(Fill::EvenOdd), false, 1, 1, Ok(())),
    (Some(Fill::EvenOdd), true, 1, 1, Err(Full(PathTags))),
    (Some(Fill::NonZero), false, 1, 1, Err(Full(PathTags))),
    (Some(Fill::NonZero), false, 2, 1, Err(Full(Styles))),
    (Some(Fill::NonZero), false, 2, 2, Ok(())),
    (Some(Fill::NonZero), false, 0, 0, Err(Short(PathTags))),
    (Some(Fill::NonZero), false, 1, 0, Err(Short(Styles))),
];

#[test]
fn fills(rt: HostRuntime) {
    for (before, forced, tags, entries, expected) in FILLS {
        assert_eq!(rt; filled(before, forced, tags, entries), expected);
    }
}

fn stroke(width: f32, miter_limit: f32) -> Stroke {
    Stroke {
        width,
        join: Join::Miter,
        miter_limit,
        start_cap: Cap::Square,
        end_cap: Cap::Round,
    }
}

// A stroke, first or after one of width 1.0, with so many path tags and styles.
fn stroked(
    first: bool,
    width: f32,
    limit: f32,
    tags: usize,
    entries: usize,
) -> Result<bool, EncodeError> {
    let mut path_tags = [PathTag(0); 4];
    let mut styles = [Style::from_fill(Fill::NonZero); 4];
    let mut encoding = Encoding::new();
    if !first {
        let _ = encoding.encode_stroke_style(&mut path_tags, &mut styles, stroke(1.0, 4.0));
    }
    let tags = &mut path_tags[0..tags.min(4)];
    let entries = &mut styles[0..entries.min(4)];
    encoding.encode_stroke_style(tags, entries, stroke(width, limit))
}

// First or not, width, miter limit, path tags, styles, and the answer.
const STROKES: [(bool, f32, f32, usize, usize, Result<bool, EncodeError>); 14] = [
    (true, 1.0, 4.0, 1, 1, Ok(true)),
    (true, 1.0, 4.0, 0, 1, Err(Full(PathTags))),
    (true, 1.0, 4.0, 1, 0, Err(Full(Styles))),
    (true, 1.0, 4.0, 0, 0, Err(Full(PathTags))),
    (true, 0.0, 4.0, 0, 0, Err(ZeroWidth)),
    (true, -0.0, 4.0, 1, 1, Err(ZeroWidth)),
    (true, 0.0, INFINITE, 0, 0, Err(NotFinite)),
    (true, INFINITE, 4.0, 1, 1, Err(NotFinite)),
    (false, 1.0, 4.0, 1, 1, Ok(true)),
    (false, 2.0, 4.0, 1, 1, Err(Full(PathTags))),
    (false, 1.0, 5.0, 2, 1, Err(Full(Styles))),
    (false, 0.0, 4.0, 0, 0, Err(Short(PathTags))),
    (false, INFINITE, 4.0, 1, 0, Err(Short(Styles))),
    (false, 0.0, 4.0, 1, 1, Err(ZeroWidth)),
];

#[test]
fn strokes(rt: HostRuntime) {
    for (first, width, limit, tags, entries, expected) in STROKES {
        assert_eq!(rt; stroked(first, width, limit, tags, entries), expected);
    }
}

// A NaN that stands in the last transform equals nothing, so that the same call writes again.
#[test]
fn a_nan_in_a_stored_transform(rt: HostRuntime) {
    let mut path_tags = [PathTag(0); 4];
    let mut transforms = [scaled(0.0); 4];
    let mut encoding = Encoding::new();
    let first = encoding.encode_transform(&mut path_tags, &mut transforms, scaled(0.0));
    transforms[0] = scaled(0.0 / 0.0);
    let again = encoding.encode_transform(&mut path_tags, &mut transforms, scaled(0.0));
    assert_eq!(rt; (first, again), (Ok(true), Ok(true)));
}

// The join, the caps at the start and at the end, the miter limit, and the word.
const WORDS: [(Join, Cap, Cap, f32, u32); 6] = [
    (Join::Bevel, Cap::Butt, Cap::Butt, 0.0, 0x8000_0000),
    (Join::Miter, Cap::Butt, Cap::Butt, 4.0, 0x9000_4400),
    (Join::Round, Cap::Butt, Cap::Butt, 4.0, 0xa000_4400),
    (Join::Bevel, Cap::Square, Cap::Butt, 1.0, 0x8400_3c00),
    (Join::Bevel, Cap::Round, Cap::Square, 1.0, 0x8900_3c00),
    (Join::Bevel, Cap::Butt, Cap::Round, -1.0, 0x8200_bc00),
];

#[test]
fn words(rt: HostRuntime) {
    for (join, start_cap, end_cap, miter_limit, expected) in WORDS {
        let stroke = Stroke {
            width: 1.0,
            join,
            miter_limit,
            start_cap,
            end_cap,
        };
        let word = Style::from_stroke(stroke).map(|style| style.flags_and_miter_limit);
        assert_eq!(rt; word, Ok(expected));
    }
    assert_eq!(rt;
        Style::from_fill(Fill::EvenOdd).flags_and_miter_limit,
        0x4000_0000
    );
}
