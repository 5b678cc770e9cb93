// The numbers of the streams and of the refusals.
use encoding::error::{EncodeError, Stream};

#[test]
fn streams(rt: HostRuntime) {
    assert_eq!(rt; Stream::PathTags.number(), 0);
    assert_eq!(rt; Stream::PathData.number(), 1);
    assert_eq!(rt; Stream::DrawTags.number(), 2);
    assert_eq!(rt; Stream::DrawData.number(), 3);
    assert_eq!(rt; Stream::Transforms.number(), 4);
    assert_eq!(rt; Stream::Styles.number(), 5);
}

#[test]
fn refusals(rt: HostRuntime) {
    assert_eq!(rt; EncodeError::ShortStream(Stream::PathTags).number(), 1);
    assert_eq!(rt; EncodeError::FullStream(Stream::PathTags).number(), 2);
    assert_eq!(rt; EncodeError::NotFinite.number(), 3);
    assert_eq!(rt; EncodeError::ZeroWidth.number(), 4);
    assert_eq!(rt; EncodeError::NoOpenClip.number(), 5);
}
