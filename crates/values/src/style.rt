// Styles of fills and strokes.
ghost use Rattle.std.specs.Prelude.{◌≡◌, ℕ};
ghost use Rattle.values.specs.Errors.{told};
ghost use Rattle.values.specs.Settings.{same_style, fill_style, stroke_style, stroke_error, MiterHalf, join_bits, cap_bits};

use crate::error::EncodeError;
use crate::setting::Setting;
use geometry::numbers::all_finite;
use math::f32_to_f16;
use std::num::f32_to_bits_with_nan;

/// Which points a fill takes for inside.
#[derive(Clone, Copy, Debug, PartialEq, Eq)]
pub enum Fill {
    NonZero,
    EvenOdd,
}

/// How two segments of a stroke are joined.
#[derive(Clone, Copy, Debug, PartialEq, Eq)]
pub enum Join {
    Bevel,
    Miter,
    Round,
}

/// How an end of a stroke looks.
#[derive(Clone, Copy, Debug, PartialEq, Eq)]
pub enum Cap {
    Butt,
    Square,
    Round,
}

/// A stroke as it is asked for.
#[derive(Clone, Copy, Debug, PartialEq)]
pub struct Stroke {
    pub width: f32,
    pub join: Join,
    pub miter_limit: f32,
    pub start_cap: Cap,
    pub end_cap: Cap,
}

/// One entry of the style stream. Its layout and the names below are the crate's, so the flags are one word.
#[derive(Clone, Copy, Debug, PartialEq)]
#[repr(C)]
pub struct Style {
    /// What is drawn and how, and in the low 16 bits the half of a stroke's miter limit.
    pub flags_and_miter_limit: u32,
    /// The width of a stroke, and 0.0 for a fill.
    pub line_width: f32,
}

impl Style {
    /// Set for a stroke.
    pub const FLAGS_STYLE_BIT: u32 = 0x8000_0000;
    /// Set for an even-odd fill.
    pub const FLAGS_FILL_BIT: u32 = 0x4000_0000;

    pub const FLAGS_JOIN_BITS_BEVEL: u32 = 0;

    pub const FLAGS_JOIN_BITS_MITER: u32 = 0x1000_0000;

    pub const FLAGS_JOIN_BITS_ROUND: u32 = 0x2000_0000;

    pub const FLAGS_JOIN_MASK: u32 = 0x3000_0000;

    pub const FLAGS_START_CAP_BITS_BUTT: u32 = 0;

    pub const FLAGS_START_CAP_BITS_SQUARE: u32 = 0x0400_0000;

    pub const FLAGS_START_CAP_BITS_ROUND: u32 = 0x0800_0000;

    pub const FLAGS_START_CAP_MASK: u32 = 0x0c00_0000;

    pub const FLAGS_END_CAP_BITS_BUTT: u32 = 0;

    pub const FLAGS_END_CAP_BITS_SQUARE: u32 = 0x0100_0000;

    pub const FLAGS_END_CAP_BITS_ROUND: u32 = 0x0200_0000;

    pub const FLAGS_END_CAP_MASK: u32 = 0x0300_0000;

    pub const MITER_LIMIT_MASK: u32 = 0xffff;

    /// The style of a fill.
    // `from_fill` and `from_stroke` are the crate's names, so these are no impls of From.
    pub fn from_fill(fill: Fill) -> Style
        ensures { result ≡ fill_style fill }
    {
        let fill_bit = match fill {
            Fill::NonZero => 0,
            Fill::EvenOdd => Style::FLAGS_FILL_BIT,
        };
        Style {
            flags_and_miter_limit: fill_bit,
            line_width: 0.0,
        }
    }

    /// The style of a stroke. Declined if its width or its miter limit is not finite, and then if it has no width.
    pub fn from_stroke(stroke: Stroke) -> Result<Style, EncodeError>
        ensures { (h : ℕ) × MiterHalf stroke h × (result ≡ told (stroke_error stroke) (stroke_style stroke h)) }
    {
        let miter_limit = f32_to_f16(f32_to_bits_with_nan(stroke.miter_limit)) as u32;
        if !all_finite(&[stroke.width, stroke.miter_limit]) {
            return Err(EncodeError::NotFinite);
        }
        if stroke.width == 0.0 {
            return Err(EncodeError::ZeroWidth);
        }
        Ok(Style {
            flags_and_miter_limit: Style::FLAGS_STYLE_BIT
                + join_bits(stroke.join)
                + cap_bits(
                    stroke.start_cap,
                    Style::FLAGS_START_CAP_BITS_BUTT,
                    Style::FLAGS_START_CAP_BITS_SQUARE,
                    Style::FLAGS_START_CAP_BITS_ROUND,
                )
                + cap_bits(
                    stroke.end_cap,
                    Style::FLAGS_END_CAP_BITS_BUTT,
                    Style::FLAGS_END_CAP_BITS_SQUARE,
                    Style::FLAGS_END_CAP_BITS_ROUND,
                )
                + miter_limit,
            line_width: stroke.width,
        })
    }
}

// The bits of a join: the crate names them as constants, which discriminants would say twice.
fn join_bits(join: Join) -> u32
    ensures { result ≡ join_bits join }
{
    match join {
        Join::Bevel => Style::FLAGS_JOIN_BITS_BEVEL,
        Join::Miter => Style::FLAGS_JOIN_BITS_MITER,
        Join::Round => Style::FLAGS_JOIN_BITS_ROUND,
    }
}

// The bits of a cap at one end of a stroke, where the caps have these.
fn cap_bits(cap: Cap, butt: u32, square: u32, round: u32) -> u32
    ensures { result ≡ cap_bits butt square round cap }
{
    match cap {
        Cap::Butt => butt,
        Cap::Square => square,
        Cap::Round => round,
    }
}

impl Setting for Style {
    ghost same = { same_style };

    fn is_same(self, other: Style) -> bool {
        self == other
    }
}
