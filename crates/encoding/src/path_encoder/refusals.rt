// Why an open path declines, told as the Encoding does.
ghost use Rattle.std.specs.Prelude.{◌≡◌};
ghost use Rattle.encoding.specs.Inner.{stream_of, error_of};

use path::state::{Declined, Stream as OwnStream};
use values::error::{EncodeError, Stream};

// Functions and no `From`, as the types are of other crates.
fn stream_of(stream: OwnStream) -> Stream
    ensures { result ≡ stream_of stream }
{
    match stream {
        OwnStream::PathTags => Stream::PathTags,
        OwnStream::PathData => Stream::PathData,
    }
}

// The refusal.
pub(super) fn error_of(declined: Declined) -> EncodeError
    ensures { result ≡ error_of declined }
{
    match declined {
        Declined::Short(stream) => EncodeError::ShortStream(stream_of(stream)),
        Declined::Full(stream) => EncodeError::FullStream(stream_of(stream)),
    }
}
