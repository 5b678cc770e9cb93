// Draw tags and the records that count them.
ghost use Rattle.std.specs.Prelude.{◌≡◌, ◌+◌, ◌^◌, ◌<◌, ◌≤◌};
ghost use Rattle.monoid.specs.DrawTags.{Draws, draws_of, none, plus, info_size, from_tag, Small};
ghost use Rattle.monoid.specs.Kinds.{draw_laws, draw_fits};

use crate::{CountError, Monoid, sum};

/// One entry of the draw tag stream. Its bits say what it counts.
// It is no enum, as any number may stand in the stream and counts by its bits.
#[derive(Clone, Copy, Debug, PartialEq, Eq)]
#[repr(C)]
pub struct DrawTag(pub u32);

impl DrawTag {
    /// Nothing is drawn.
    pub const NOP: DrawTag = DrawTag(0);
    /// A plain colour.
    pub const COLOR: DrawTag = DrawTag(0x44);
    /// A blurred rounded rectangle.
    pub const BLUR_RECT: DrawTag = DrawTag(0x2d4);
    /// A clip begins.
    pub const BEGIN_CLIP: DrawTag = DrawTag(0x49);
    /// A clip ends.
    pub const END_CLIP: DrawTag = DrawTag(0x21);

    /// How many words of the engine's info buffer the command takes.
    pub fn info_size(self) -> u32
        ensures { result ≡ info_size self }
    {
        (self.0 >> 6) & 0xf
    }
}

/// What some draw tags count.
#[derive(Clone, Copy, Debug, PartialEq, Eq)]
#[repr(C)]
pub struct DrawMonoid {
    /// Paths.
    pub path_ix: u32,
    /// Clip commands.
    pub clip_ix: u32,
    /// Words of draw data.
    pub scene_offset: u32,
    /// Words of the engine's info buffer.
    pub info_offset: u32,
}

impl Monoid for DrawMonoid {
    type SourceValue = DrawTag;

    ghost Meaning = { Draws };

    ghost meaning = { draws_of };

    ghost source = { from_tag };

    ghost empty = { none };

    ghost op = { plus };

    ghost Fits = { Small };

    ghost monoid = { draw_laws };

    ghost few = { draw_fits };

    fn identity() -> DrawMonoid {
        DrawMonoid {
            path_ix: 0,
            clip_ix: 0,
            scene_offset: 0,
            info_offset: 0,
        }
    }

    fn new(tag: DrawTag) -> DrawMonoid {
        DrawMonoid {
            path_ix: (tag != DrawTag::NOP) as u32,
            clip_ix: tag.0 & 1,
            scene_offset: (tag.0 >> 2) & 0x7,
            info_offset: tag.info_size(),
        }
    }

    fn combine(&self, other: &DrawMonoid) -> Result<DrawMonoid, CountError> {
        Ok(DrawMonoid {
            path_ix: sum(self.path_ix, other.path_ix)?,
            clip_ix: sum(self.clip_ix, other.clip_ix)?,
            scene_offset: sum(self.scene_offset, other.scene_offset)?,
            info_offset: sum(self.info_offset, other.info_offset)?,
        })
    }

    fn combine_fitting(&self, other: &DrawMonoid) -> DrawMonoid {
        DrawMonoid {
            path_ix: self.path_ix + other.path_ix,
            clip_ix: self.clip_ix + other.clip_ix,
            scene_offset: self.scene_offset + other.scene_offset,
            info_offset: self.info_offset + other.info_offset,
        }
    }
}
