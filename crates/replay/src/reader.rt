// What is read from the streams by counting.
ghost use Rattle.std.specs.Prelude.{◌≡◌, ◌+◌, ◌^◌, ◌<◌, ◌≤◌, length, take, drop, if◌then◌else◌, slice_index, slice_set};
ghost use Rattle.monoid.specs.PathTags.{counts_of, is_segment};
ghost use Rattle.replay.specs.Wanted.{last_counted};
ghost use Rattle.replay.specs.Reading.{eight_at, segment-at, command_at, CommandsRead, SegmentsRead, Read};

use monoid::draw::{DrawMonoid, DrawTag};
use monoid::path::{PathMonoid, PathTag};
use monoid::{CountError, Monoid, few_enough};
use std::array;
use values::style::Style;
use values::transform::Transform;

// A row owns its words, so that the streams can be lent to calls while the table is kept: hence eight, filled with zeros.

/// What the streams show of a segment.
#[derive(Clone, Copy, Debug, PartialEq)]
pub struct ShownSegment {
    pub tag: PathTag,
    /// The words of its points, the point that it starts from first, and zeros after them.
    pub points: [u32; 8],
    /// The last style counted before it.
    pub style: Option<Style>,
    /// The last transform counted before it.
    pub transform: Option<Transform>,
}

/// What the streams show of a draw command.
#[derive(Clone, Copy, Debug, PartialEq)]
pub struct ShownCommand {
    pub tag: DrawTag,
    /// Its words, and zeros after them.
    pub words: [u32; 8],
}

// The last of the first `n`.
fn last_counted<T: Copy>(entries: &[T], n: usize) -> Option<T>
    ensures { result ≡ last_counted entries.now n }
{
    entries.get(n.checked_sub(1)?).copied()
}

// The word at place `i` of the `n` words from an offset on, or zero.
fn word_at(words: &[u32], offset: u32, n: usize, i: usize) -> u32
    requires { i < 8 }
    ensures { result ≡ slice_index (take n (drop offset words.now)) i }
{
    if i < n {
        words.get(offset as usize + i).copied().unwrap_or(0)
    } else {
        0
    }
}

// A row of the `n` words from an offset on.
fn eight_at(words: &[u32], offset: u32, n: usize) -> [u32; 8]
    ensures { result ≡ eight_at words.now offset n }
{
    array::from_fn(|i| word_at(words, offset, n, i))
}

// A segment at the offsets that were counted before it, or none for a tag that is no segment. `read_segments` is lent the
// three streams one by one, so a struct of them would be made and taken apart at once.
fn segment_at(
    path_data: &[u32],
    transforms: &[Transform],
    styles: &[Style],
    before: PathMonoid,
    tag: PathTag,
) -> Option<ShownSegment>
    ensures { result ≡ (if is_segment tag then Some (segment-at path_data.now transforms.now styles.now (counts_of before) tag) else None) }
{
    let n = 2 * (tag.path_segment_type()?.points() + 1);
    Some(ShownSegment {
        tag,
        points: eight_at(path_data, before.pathseg_offset, n),
        style: last_counted(styles, before.style_ix as usize / 2),
        transform: last_counted(transforms, before.trans_ix as usize),
    })
}

// Writes a row, if the table has it. A proof knows no element of a slice after `get_mut`, so this is an index write.
fn put<T: Copy>(table: &mut [T], row: usize, value: T)
    ensures { table.new ≡ slice_set table.old row value }
{
    if row < table.len() {
        table[row] = value;
    }
}

/// Reads the draw commands into a table, and says how many there are.
pub fn read_commands(
    draw_tags: &[DrawTag],
    draw_data: &[u32],
    table: &mut [ShownCommand],
) -> Result<usize, CountError>
    ensures { Read (length draw_tags.now) table.old table.new (λ n. CommandsRead draw_tags.now draw_data.now table.old table.new n) result }
{
    few_enough(draw_tags.len())?;
    let mut before = DrawMonoid::identity();
    for (i, tag) in draw_tags.iter().enumerate() {
        let own = DrawMonoid::new(*tag);
        let words = eight_at(draw_data, before.scene_offset, own.scene_offset as usize);
        put(table, i, ShownCommand { tag: *tag, words });
        before = before.combine_fitting(&own);
    }
    Ok(draw_tags.len())
}

/// Reads the segments into a table, each at its number, and says how many there are.
pub fn read_segments(
    path_tags: &[PathTag],
    path_data: &[u32],
    transforms: &[Transform],
    styles: &[Style],
    table: &mut [ShownSegment],
) -> Result<usize, CountError>
    ensures { Read (length path_tags.now) table.old table.new (λ n. SegmentsRead path_tags.now path_data.now transforms.now styles.now table.old table.new n) result }
{
    few_enough(path_tags.len())?;
    let mut before = PathMonoid::identity();
    for tag in path_tags {
        if let Some(shown) = segment_at(path_data, transforms, styles, before, *tag) {
            put(table, before.pathseg_ix as usize, shown);
        }
        before = before.combine_fitting(&PathMonoid::new(tag.0 as u32));
    }
    Ok(before.pathseg_ix as usize)
}
