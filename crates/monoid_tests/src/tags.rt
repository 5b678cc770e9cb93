// Tags, packing, and which begin an end meets.
use monoid::clip::begin_met;
use monoid::draw::DrawTag;
use monoid::path::{PathSegmentType, PathTag, pack_tags};
use std::test::Fail;

#[test]
fn path_tags(rt: HostRuntime) {
    let mut tag = PathTag::QUAD_TO_F32;
    assert!(rt; tag.is_path_segment());
    assert!(rt; tag.is_f32());
    assert!(rt; !tag.is_subpath_end());
    assert_eq!(rt; tag.path_segment_type(), Some(PathSegmentType::QuadTo));
    assert_eq!(rt; PathSegmentType::QuadTo.points(), 2);
    tag.set_subpath_end();
    tag.set_subpath_end();
    assert!(rt; tag.is_subpath_end());
    assert_eq!(rt; tag, PathTag(0xe));
    assert!(rt; !PathTag::PATH.is_path_segment());
    assert!(rt; !PathTag::STYLE.is_f32());
    assert!(rt; PathTag(1).is_path_segment());
}

#[test]
fn info_sizes(rt: HostRuntime) {
    assert_eq!(rt; DrawTag::COLOR.info_size(), 1);
    assert_eq!(rt; DrawTag::BLUR_RECT.info_size(), 11);
    assert_eq!(rt; DrawTag::END_CLIP.info_size(), 0);
}

#[test]
fn packing(rt: HostRuntime) -> Result<(), Fail> {
    let tags = [
        PathTag(0x20),
        PathTag(0x40),
        PathTag(9),
        PathTag(9),
        PathTag(0xd),
        PathTag(0x10),
    ];
    let none = pack_tags(rt.alloc(), &tags[0..0])?;
    assert!(rt; none.is_empty());
    let four = pack_tags(rt.alloc(), &tags[0..4])?;
    assert_eq!(rt; four.as_slice(), [0x09094020].as_slice());
    let three = pack_tags(rt.alloc(), &tags[0..3])?;
    assert_eq!(rt; three.as_slice(), [0x00094020].as_slice());
    let six = pack_tags(rt.alloc(), &tags)?;
    assert_eq!(rt; six.as_slice(), [0x09094020, 0x0000100d].as_slice());
    Ok(())
}

// Begins at 0, 1 and 4; the end at 3 meets 1, that at 5 meets 4, that at 6 meets 0, and that at 7 none.
#[test]
fn meetings(rt: HostRuntime) {
    let begin = DrawTag::BEGIN_CLIP;
    let end = DrawTag::END_CLIP;
    let tags = [begin, begin, DrawTag::COLOR, end, begin, end, end, end];
    assert_eq!(rt; begin_met(&tags, 3), Some(1));
    assert_eq!(rt; begin_met(&tags, 5), Some(4));
    assert_eq!(rt; begin_met(&tags, 6), Some(0));
    assert_eq!(rt; begin_met(&tags, 7), None);
    assert_eq!(rt; begin_met(&tags, 2), None);
    assert_eq!(rt; begin_met(&tags, 8), None);
}
