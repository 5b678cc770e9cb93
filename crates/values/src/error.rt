// The streams, and why a call is declined.
ghost use Rattle.std.specs.Prelude.{◌≡◌};
ghost use Rattle.values.specs.Streams.{stream_number, max_entries};
ghost use Rattle.values.specs.Errors.{number};

/// A stream of a plan.
#[derive(Clone, Copy, Debug, PartialEq, Eq)]
pub enum Stream {
    PathTags = 0,
    PathData = 1,
    DrawTags = 2,
    DrawData = 3,
    Transforms = 4,
    Styles = 5,
}

// The most words that the path data or the draw data may use, and the most entries of any other stream.
const MAX_WORDS: usize = 8_388_608;

const MAX_ENTRIES: usize = 1_048_576;

impl Stream {
    /// The stream's number; the streams that a call is lent come in this order.
    pub fn number(self) -> u32
        ensures { result ≡ stream_number self }
    {
        self as u32
    }

    /// The most entries that the stream may use.
    pub fn max_entries(self) -> usize
        ensures { result ≡ max_entries self }
    {
        match self {
            Stream::PathData | Stream::DrawData => MAX_WORDS,
            _ => MAX_ENTRIES,
        }
    }
}

/// Why a call was declined.
#[derive(Clone, Copy, Debug, PartialEq, Eq)]
pub enum EncodeError {
    /// The stream has fewer entries than its used length says.
    ShortStream(Stream),
    /// The stream would be used past its end or past its maximum.
    FullStream(Stream),
    /// A number that was handed in is infinite or a NaN.
    NotFinite,
    /// The width of a stroke is zero.
    ZeroWidth,
    /// A clip is to end, and none is open.
    NoOpenClip,
}

impl EncodeError {
    /// The refusal's number.
    pub fn number(self) -> u32
        ensures { result ≡ number self }
    {
        // A match, as an enum that holds a stream is not cast to its number.
        match self {
            EncodeError::ShortStream(_) => 1,
            EncodeError::FullStream(_) => 2,
            EncodeError::NotFinite => 3,
            EncodeError::ZeroWidth => 4,
            EncodeError::NoOpenClip => 5,
        }
    }
}
