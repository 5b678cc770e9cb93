// Path tags and the records that count them.
ghost use Rattle.std.specs.Prelude.{◌≡◌, ◌+◌, ◌<◌, ◌≤◌, length, IfOk};
ghost use Rattle.monoid.specs.Packing.{word, Packs};
ghost use Rattle.monoid.specs.PathTags.{Counts, counts_of, none, plus, from_word, Small, points, points_of, segment_type, is_segment, is_f32, ends_subpath, ended};
ghost use Rattle.monoid.specs.Kinds.{path_laws, path_fits};

use crate::{CountError, Monoid, sum};
use std::alloc::{AllocError, Global};

/// What a segment is: its number is how many points it has past the one it starts from.
#[derive(Clone, Copy, Debug, PartialEq, Eq)]
pub enum PathSegmentType {
    LineTo = 1,
    QuadTo = 2,
    CubicTo = 3,
}

impl PathSegmentType {
    /// How many points the segment has past the one it starts from.
    pub fn points(self) -> usize
        ensures { result ≡ points self }
    {
        self as usize
    }
}

/// One entry of the path tag stream.
// It is no enum, as any byte may stand in the stream and counts by its bits.
#[derive(Clone, Copy, Debug, PartialEq, Eq)]
#[repr(C)]
pub struct PathTag(pub u8);

impl PathTag {
    /// A line of f32 coordinates.
    pub const LINE_TO_F32: PathTag = PathTag(0x9);
    /// A quadratic of f32 coordinates.
    pub const QUAD_TO_F32: PathTag = PathTag(0xa);
    /// A cubic of f32 coordinates.
    pub const CUBIC_TO_F32: PathTag = PathTag(0xb);
    /// A transform begins to hold.
    pub const TRANSFORM: PathTag = PathTag(0x20);
    /// A path ends.
    pub const PATH: PathTag = PathTag(0x10);
    /// A style begins to hold.
    pub const STYLE: PathTag = PathTag(0x40);
    /// Marks the last segment of a subpath.
    pub const SUBPATH_END_BIT: u8 = 0x4;
    // Marks coordinates of 32 bits.
    const F32_BIT: u8 = 0x8;
    // Holds the segment's type.
    const SEGMENT_MASK: u8 = 0x3;

    /// Whether the tag is a segment's.
    pub fn is_path_segment(self) -> bool
        ensures { result ≡ is_segment self }
    {
        self.path_segment_type().is_some()
    }

    /// Whether the tag's coordinates are f32 numbers.
    pub fn is_f32(self) -> bool
        ensures { result ≡ is_f32 self }
    {
        self.0 & PathTag::F32_BIT != 0
    }

    /// Whether the tag ends a subpath.
    pub fn is_subpath_end(self) -> bool
        ensures { result ≡ ends_subpath self }
    {
        self.0 & PathTag::SUBPATH_END_BIT != 0
    }

    /// Makes the tag end its subpath.
    pub fn set_subpath_end(&mut self)
        ensures { self.new ≡ ended self.old }
    {
        self.0 |= PathTag::SUBPATH_END_BIT;
    }

    /// The type of the segment: none for a tag that is no segment.
    pub fn path_segment_type(self) -> Option<PathSegmentType>
        ensures { points_of result ≡ segment_type self }
    {
        match self.0 & PathTag::SEGMENT_MASK {
            1 => Some(PathSegmentType::LineTo),
            2 => Some(PathSegmentType::QuadTo),
            3 => Some(PathSegmentType::CubicTo),
            _ => None,
        }
    }
}

/// What some path tags count: where the next one finds its transform, points, style and path.
#[derive(Clone, Copy, Debug, PartialEq, Eq)]
#[repr(C)]
pub struct PathMonoid {
    /// Transforms.
    pub trans_ix: u32,
    /// Segments.
    pub pathseg_ix: u32,
    /// Words of path data.
    pub pathseg_offset: u32,
    /// Words of styles, two for each.
    pub style_ix: u32,
    /// Paths.
    pub path_ix: u32,
}

impl Monoid for PathMonoid {
    // Four tags, the first in the lowest byte.
    type SourceValue = u32;

    ghost Meaning = { Counts };

    ghost meaning = { counts_of };

    ghost source = { from_word };

    ghost empty = { none };

    ghost op = { plus };

    ghost Fits = { Small };

    ghost monoid = { path_laws };

    ghost few = { path_fits };

    fn identity() -> PathMonoid {
        PathMonoid {
            trans_ix: 0,
            pathseg_ix: 0,
            pathseg_offset: 0,
            style_ix: 0,
            path_ix: 0,
        }
    }

    // The tags' bits are counted side by side, in the four bytes of one number.
    fn new(tag_word: u32) -> PathMonoid {
        let point_count = tag_word & 0x3030303;
        let pathseg_ix = ((point_count * 7) & 0x4040404).count_ones();
        let trans_ix = (tag_word & (PathTag::TRANSFORM.0 as u32 * 0x1010101)).count_ones();
        let n_points = point_count + ((tag_word >> 2) & 0x1010101);
        let mut a = n_points + (n_points & (((tag_word >> 3) & 0x1010101) * 15));
        a += a >> 8;
        a += a >> 16;
        let pathseg_offset = a & 0xff;
        let path_ix = (tag_word & (PathTag::PATH.0 as u32 * 0x1010101)).count_ones();
        let style_size = 2;
        let style_ix = (tag_word & (PathTag::STYLE.0 as u32 * 0x1010101)).count_ones() * style_size;
        PathMonoid {
            trans_ix,
            pathseg_ix,
            pathseg_offset,
            style_ix,
            path_ix,
        }
    }

    fn combine(&self, other: &PathMonoid) -> Result<PathMonoid, CountError> {
        Ok(PathMonoid {
            trans_ix: sum(self.trans_ix, other.trans_ix)?,
            pathseg_ix: sum(self.pathseg_ix, other.pathseg_ix)?,
            pathseg_offset: sum(self.pathseg_offset, other.pathseg_offset)?,
            style_ix: sum(self.style_ix, other.style_ix)?,
            path_ix: sum(self.path_ix, other.path_ix)?,
        })
    }

    fn combine_fitting(&self, other: &PathMonoid) -> PathMonoid {
        PathMonoid {
            trans_ix: self.trans_ix + other.trans_ix,
            pathseg_ix: self.pathseg_ix + other.pathseg_ix,
            pathseg_offset: self.pathseg_offset + other.pathseg_offset,
            style_ix: self.style_ix + other.style_ix,
            path_ix: self.path_ix + other.path_ix,
        }
    }
}

// Four tags in a word, the first in the lowest byte.
fn tag_word(a: PathTag, b: PathTag, c: PathTag, d: PathTag) -> u32
    ensures { result ≡ word a b c d }
{
    u32::from_le_bytes([a.0, b.0, c.0, d.0])
}

/// The tags in words of four, the last filled up with zero tags.
pub fn pack_tags(heap: Global, tags: &[PathTag]) -> Result<Vec<u32>, AllocError>
    ensures { IfOk result (λ v. Packs tags.now v.items) }
{
    let (fours, rest) = tags.as_chunks::<4>();
    let mut words = Vec::with_capacity(heap, fours.len() + 1)?;
    for [a, b, c, d] in fours {
        words.push(tag_word(*a, *b, *c, *d))?;
    }
    if !rest.is_empty() {
        let mut last = [PathTag(0); 4];
        last[..rest.len()].copy_from_slice(rest);
        let [a, b, c, d] = last;
        words.push(tag_word(a, b, c, d))?;
    }
    Ok(words)
}
