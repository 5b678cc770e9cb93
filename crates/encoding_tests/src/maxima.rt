// Streams at their maxima, with space beyond.
use encoding::encoding::Encoding;
use encoding::error::{EncodeError, Stream};
use encoding::transform::Transform;
use monoid::draw::DrawTag;
use monoid::path::PathTag;
use std::test::Fail;

#[test]
fn the_numbers(rt: HostRuntime) {
    assert_eq!(rt; Stream::PathTags.max_entries(), 1_048_576);
    assert_eq!(rt; Stream::PathData.max_entries(), 8_388_608);
    assert_eq!(rt; Stream::DrawTags.max_entries(), 1_048_576);
    assert_eq!(rt; Stream::DrawData.max_entries(), 8_388_608);
    assert_eq!(rt; Stream::Transforms.max_entries(), 1_048_576);
    assert_eq!(rt; Stream::Styles.max_entries(), 1_048_576);
}

// As many colours as there may be draw tags, and one more.
#[test]
fn colours(rt: HostRuntime) -> Result<(), Fail> {
    let most = Stream::DrawTags.max_entries();
    let mut tags = vec![in rt.alloc(); DrawTag::NOP; 1_048_580]?;
    let mut words = vec![in rt.alloc(); 0u32; 1_048_580]?;
    let mut encoding = Encoding::new();
    for _ in 0..most {
        assert!(rt;
            encoding
                .encode_color(tags.as_mut_slice(), words.as_mut_slice(), 7)
                .is_ok()
        );
    }
    assert_eq!(rt; encoding.stream_offsets().draw_tags, most);
    let more = encoding.encode_color(tags.as_mut_slice(), words.as_mut_slice(), 7);
    assert_eq!(rt; more, Err(EncodeError::FullStream(Stream::DrawTags)));
    Ok(())
}

// As many transforms as there may be path tags: one more is declined, but not the same one again.
#[test]
fn transforms(rt: HostRuntime) -> Result<(), Fail> {
    let unit = Transform {
        matrix: [1.0, 0.0, 0.0, 1.0],
        translation: [0.0, 0.0],
    };
    let most = Stream::Transforms.max_entries();
    let mut tags = vec![in rt.alloc(); PathTag(0); 1_048_580]?;
    let mut entries = vec![in rt.alloc(); unit; 1_048_580]?;
    let mut encoding = Encoding::new();
    for _ in 0..most {
        encoding.force_next_transform_and_style();
        assert!(rt;
            encoding
                .encode_transform(tags.as_mut_slice(), entries.as_mut_slice(), unit)
                .is_ok()
        );
    }
    let again = encoding.encode_transform(tags.as_mut_slice(), entries.as_mut_slice(), unit);
    encoding.force_next_transform_and_style();
    let more = encoding.encode_transform(tags.as_mut_slice(), entries.as_mut_slice(), unit);
    assert_eq!(rt; again, Ok(false));
    assert_eq!(rt; more, Err(EncodeError::FullStream(Stream::PathTags)));
    Ok(())
}

// Each subpath is a cubic that ends where it began, with one tag and eight words, until both streams are full.
// Another move then wants words and no tag.
#[test]
fn subpaths(rt: HostRuntime) -> Result<(), Fail> {
    let most = Stream::PathTags.max_entries();
    let mut tags = vec![in rt.alloc(); PathTag(0); 1_048_580]?;
    let mut words = vec![in rt.alloc(); 0u32; 8_388_620]?;
    let mut path = Encoding::new().encode_path(true);
    let mut declined = false;
    for _ in 0..most {
        let tags = tags.as_mut_slice();
        let words = words.as_mut_slice();
        declined |= path.move_to(tags, words, 0.0, 0.0).is_err();
        declined |= path
            .cubic_to(tags, words, 1.0, 1.0, 2.0, 1.0, 0.0, 0.0)
            .is_err();
    }
    let tags = tags.as_mut_slice();
    let words = words.as_mut_slice();
    let closed = path.close(tags, words);
    let moved = path.move_to(tags, words, 0.0, 0.0);
    let used = path.abandon().stream_offsets();
    assert!(rt; !declined);
    assert_eq!(rt; closed, Ok(()));
    assert_eq!(rt; moved, Err(EncodeError::FullStream(Stream::PathData)));
    assert_eq!(rt; used.path_tags, 0);
    Ok(())
}
