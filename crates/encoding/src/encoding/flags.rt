// The word that tells what is forced next.
ghost use Rattle.std.specs.Prelude.{◌≡◌};
ghost use Rattle.encoding.specs.Flags.{flags_of};

use crate::encoding::Encoding;

// The word and its bits are the crate's; the Encoding itself has two truth values.
impl Encoding {
    /// The bit that has the next transform written though it be the same as the last.
    pub const FORCE_NEXT_TRANSFORM: u32 = 1;
    /// The bit that has the next style written though it be the same as the last.
    pub const FORCE_NEXT_STYLE: u32 = 2;
}

// The word of the two bits.
pub(super) fn flags_of(transform: bool, style: bool) -> u32
    ensures { result ≡ flags_of transform style }
{
    let transform_bit = if transform {
        Encoding::FORCE_NEXT_TRANSFORM
    } else {
        0
    };
    let style_bit = if style { Encoding::FORCE_NEXT_STYLE } else { 0 };
    transform_bit + style_bit
}
