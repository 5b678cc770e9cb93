// Whole plans: what the streams, the lengths and the counts are after the calls.
use encoding::encoding::{Counts, Encoding, StreamOffsets};
use encoding::error::{EncodeError, Stream};
use encoding::path_encoder::PathEncoder;
use encoding::style::{Cap, Fill, Join, Stroke, Style};
use encoding::transform::Transform;
use monoid::draw::DrawTag;
use monoid::path::PathTag;
use std::process::Abort;
use std::test::Fail;

// Nothing in use, and nothing counted.
const UNUSED: StreamOffsets = StreamOffsets {
    path_tags: 0,
    path_data: 0,
    draw_tags: 0,
    draw_data: 0,
    transforms: 0,
    styles: 0,
};

const NOTHING: Counts = Counts {
    n_paths: 0,
    n_path_segments: 0,
    n_clips: 0,
    n_open_clips: 0,
    flags: 0,
};

// A triangle: 09 09 0D 10, and back at its first point.
#[test]
fn a_filled_triangle(rt: HostRuntime) -> Result<(), Fail> {
    let mut tags = [PathTag(0); 8];
    let mut words = [0xffff_ffffu32; 8];
    let mut path = Encoding::new().encode_path(true);
    let _ = path.move_to(&mut tags, &mut words, 0.0, 0.0);
    let _ = path.line_to(&mut tags, &mut words, 4.0, 0.0);
    let _ = path.line_to(&mut tags, &mut words, 4.0, 3.0);
    let (encoding, count) = ended(&rt, path.finish(&mut tags, &mut words, true))?;
    assert_eq!(rt; count, 3);
    assert_eq!(rt;
        &tags[..4],
        [PathTag(0x09), PathTag(0x09), PathTag(0x0d), PathTag(0x10)].as_slice()
    );
    assert_eq!(rt; (words[6], words[7]), (0, 0));
    assert_eq!(rt;
        encoding.stream_offsets(),
        StreamOffsets {
            path_tags: 4,
            path_data: 8,
            ..UNUSED
        }
    );
    assert_eq!(rt;
        encoding.counts(),
        Counts {
            n_paths: 1,
            n_path_segments: 3,
            ..NOTHING
        }
    );
    Ok(())
}

// The Encoding and the count of a finish that is accepted.
fn ended(
    rt: &impl Abort,
    r: Result<(Encoding, u32), (EncodeError, PathEncoder)>,
) -> Result<(Encoding, u32), Fail> {
    match r {
        Ok(done) => Ok(done),
        Err((error, path)) => {
            let _ = path.abandon();
            assert_eq!(rt; Some(error), None);
            Err(Fail::new("declined"))
        }
    }
}

// A stroke from 0.0, 0.0 to 3.0, 0.0, with a line that is declined on the way.
fn interrupted(
    x: f32,
    tags: &mut [PathTag],
    words: &mut [u32],
) -> (PathEncoder, Result<(), EncodeError>) {
    let mut path = Encoding::new().encode_path(false);
    let _ = path.move_to(tags, words, 0.0, 0.0);
    let declined = path.line_to(&mut [], words, x, 0.0);
    let _ = path.line_to(tags, words, 3.0, 0.0);
    (path, declined)
}

#[test]
fn a_path_goes_on_after_a_refusal(rt: HostRuntime) -> Result<(), Fail> {
    let mut tags = [PathTag(0); 8];
    let mut words = [0u32; 8];
    let (path, full) = interrupted(2.0, &mut tags, &mut words);
    let (encoding, count) = ended(&rt, path.finish(&mut tags, &mut words, true))?;
    assert_eq!(rt; full, Err(EncodeError::FullStream(Stream::PathTags)));
    assert_eq!(rt; count, 2);
    assert_eq!(rt;
        &tags[..4],
        [PathTag(0x09), PathTag(0x0e), PathTag(0x10), PathTag(0x00)].as_slice()
    );
    assert_eq!(rt; (words[2], words[6]), (0x4040_0000, 0x3f80_0000));
    assert_eq!(rt;
        encoding.stream_offsets(),
        StreamOffsets {
            path_tags: 3,
            path_data: 8,
            ..UNUSED
        }
    );
    Ok(())
}

// A declined finish gives the path back.
#[test]
fn a_path_is_finished_after_a_refusal(rt: HostRuntime) -> Result<(), Fail> {
    let mut tags = [PathTag(0); 8];
    let mut words = [0u32; 8];
    let (path, infinite) = interrupted(1.0 / 0.0, &mut tags, &mut words);
    let path = match path.finish(&mut [PathTag(9), PathTag(0)], &mut words, true) {
        Ok(_) => return Err(Fail::new("a tag is lacking")),
        Err((_, path)) => path,
    };
    let (encoding, count) = ended(&rt, path.finish(&mut tags, &mut words, true))?;
    assert_eq!(rt; infinite, Err(EncodeError::NotFinite));
    assert_eq!(rt; count, 2);
    assert_eq!(rt;
        encoding.counts(),
        Counts {
            n_paths: 1,
            n_path_segments: 2,
            ..NOTHING
        }
    );
    Ok(())
}

// The words of a NaN that was put in place of the last point are left out of the extent.
#[test]
fn a_nan_in_the_last_words(rt: HostRuntime) -> Result<(), Fail> {
    let mut tags = [PathTag(0); 8];
    let mut words = [0u32; 16];
    let mut path = Encoding::new().encode_path(false);
    let _ = path.move_to(&mut tags, &mut words, 0.0, 0.0);
    let _ = path.line_to(&mut tags, &mut words, 3.0, 0.0);
    words[2] = 0x7fc0_0000;
    let dropped = path.line_to(&mut tags, &mut words, 5.0, 0.0);
    let kept = path.line_to(&mut tags, &mut words, 5.0, 1.0);
    let (encoding, count) = ended(&rt, path.finish(&mut tags, &mut words, false))?;
    assert_eq!(rt; (dropped, kept), (Ok(()), Ok(())));
    assert_eq!(rt; count, 3);
    assert_eq!(rt;
        encoding.stream_offsets(),
        StreamOffsets {
            path_tags: 3,
            path_data: 10,
            ..UNUSED
        }
    );
    Ok(())
}

// Abandoned, a path leaves nothing in use.
#[test]
fn an_abandoned_path(rt: HostRuntime) {
    let mut tags = [PathTag(0); 8];
    let mut words = [0u32; 8];
    let mut path = Encoding::new().encode_path(true);
    let _ = path.move_to(&mut tags, &mut words, 0.0, 0.0);
    let _ = path.line_to(&mut tags, &mut words, 4.0, 0.0);
    let encoding = path.abandon();
    assert_eq!(rt; encoding.stream_offsets(), UNUSED);
    assert_eq!(rt; encoding.counts(), NOTHING);
}

// A clip, a colour and the clip's end.
#[test]
fn a_clipped_colour(rt: HostRuntime) {
    let mut path_tags = [PathTag(0); 8];
    let mut draw_tags = [DrawTag::NOP; 4];
    let mut draw_data = [0u32; 4];
    let mut encoding = Encoding::new();
    let _ = encoding.encode_begin_clip(&mut draw_tags, &mut draw_data, 0, 3, 1.0);
    assert_eq!(rt;
        encoding.counts(),
        Counts {
            n_clips: 1,
            n_open_clips: 1,
            ..NOTHING
        }
    );
    let _ = encoding.encode_color(&mut draw_tags, &mut draw_data, 0xff00_00ff);
    let _ = encoding.encode_end_clip(&mut path_tags, &mut draw_tags);
    assert_eq!(rt;
        &draw_tags[..3],
        [DrawTag(0x49), DrawTag(0x44), DrawTag(0x21)].as_slice()
    );
    assert_eq!(rt; &draw_data[..3], [3, 0x3f80_0000, 0xff00_00ff].as_slice());
    assert_eq!(rt; path_tags[0], PathTag(0x10));
    assert_eq!(rt;
        encoding.stream_offsets(),
        StreamOffsets {
            path_tags: 1,
            draw_tags: 3,
            draw_data: 3,
            ..UNUSED
        }
    );
    assert_eq!(rt;
        encoding.counts(),
        Counts {
            n_paths: 1,
            n_clips: 2,
            ..NOTHING
        }
    );
}

const UNIT: Transform = Transform {
    matrix: [1.0, 0.0, 0.0, 1.0],
    translation: [0.0, 0.0],
};

const THICK: Stroke = Stroke {
    width: 2.5,
    join: Join::Miter,
    miter_limit: 4.0,
    start_cap: Cap::Square,
    end_cap: Cap::Round,
};

// A transform and a style, forced and not, and a reset.
#[test]
fn settings_and_flags(rt: HostRuntime) {
    let mut path_tags = [PathTag(0); 8];
    let mut transforms = [UNIT; 4];
    let mut styles = [Style::from_fill(Fill::NonZero); 4];
    let mut encoding = Encoding::new();
    encoding.force_next_transform_and_style();
    assert_eq!(rt;
        encoding.counts(),
        Counts {
            flags: 3,
            ..NOTHING
        }
    );
    let wrote = encoding.encode_transform(&mut path_tags, &mut transforms, UNIT);
    assert_eq!(rt;
        encoding.counts(),
        Counts {
            flags: 2,
            ..NOTHING
        }
    );
    let again = encoding.encode_transform(&mut path_tags, &mut transforms, UNIT);
    let stroke = encoding.encode_stroke_style(&mut path_tags, &mut styles, THICK);
    assert_eq!(rt; (wrote, again, stroke), (Ok(true), Ok(false), Ok(true)));
    assert_eq!(rt; styles[0].flags_and_miter_limit, 0x9600_4400);
    assert_eq!(rt;
        &path_tags[..4],
        [PathTag(0x20), PathTag(0x40), PathTag(0x00), PathTag(0x00)].as_slice()
    );
    assert_eq!(rt;
        encoding.stream_offsets(),
        StreamOffsets {
            path_tags: 2,
            transforms: 1,
            styles: 1,
            ..UNUSED
        }
    );
    assert_eq!(rt; encoding.counts(), NOTHING);
    encoding.force_next_transform_and_style();
    encoding.reset();
    assert_eq!(rt; encoding.stream_offsets(), UNUSED);
    assert_eq!(rt; encoding.counts(), NOTHING);
}
