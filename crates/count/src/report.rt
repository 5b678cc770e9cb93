// What is counted of a sheet, and how it is printed.
ghost use Rattle.std.specs.Prelude.{◌≡◌, IfOk};
ghost use Rattle.monoid.specs.Laws.{reduced};
ghost use Rattle.monoid.specs.PathTags.{none, plus, from_tag, counts_of};
ghost use Rattle.count.specs.Counted.{Counted};

use crate::input::Sheet;
use math::{f16_to_f32, f32_to_f16};
use monoid::clip::{ClipBic, begin_met};
use monoid::draw::{DrawMonoid, DrawTag};
use monoid::path::{PathMonoid, PathTag, pack_tags};
use monoid::reduction::{prefixes, reduce};
use monoid::{CountError, Monoid};
use std::alloc::{AllocError, Global};
use std::fmt;
use thiserror::Error;

/// Why a sheet was not counted.
#[derive(Clone, Copy, Debug, PartialEq, Eq, Error)]
pub enum ReportError {
    #[error("declined {}", .0.number())]
    Declined(#[from] CountError),
    #[error("out of memory")]
    NoMemory(#[from(alloc)] AllocError),
}

/// The totals of a sheet, and the record of the draw tags before each.
// The rows stand beside the sheet's tags and not with them, as one call fills a table of records.
#[derive(Drop)]
pub struct Counts {
    paths: PathMonoid,
    draws: DrawMonoid,
    clip: ClipBic,
    rows: Vec<DrawMonoid>,
}

// The totals of path tags.
fn path_totals(heap: Global, tags: &[PathTag]) -> Result<PathMonoid, ReportError>
    ensures { IfOk result (λ m. counts_of m ≡ reduced none plus from_tag tags.now) }
{
    let words = pack_tags(heap, tags)?;
    Ok(reduce(&words)?)
}

/// The counts of a sheet. It is declined for want of memory, and for too many tags.
pub fn count(heap: Global, sheet: &Sheet) -> Result<Counts, ReportError>
    ensures { IfOk result (λ c. Counted sheet.now c) }
{
    let paths = path_totals(heap, &sheet.path_tags)?;
    let draws: DrawMonoid = reduce(&sheet.draw_tags)?;
    let clip: ClipBic = reduce(&sheet.draw_tags)?;
    let mut rows = vec![in heap; DrawMonoid::identity(); sheet.draw_tags.len()]?;
    prefixes(&sheet.draw_tags, &mut rows)?;
    Ok(Counts {
        paths,
        draws,
        clip,
        rows,
    })
}

// What draw tags count, as it is printed.
#[derive(Clone, Copy)]
struct Draws<'a>(&'a DrawMonoid);

impl fmt::Display for Draws<'_> {
    fn fmt<W: fmt::Write>(&self, f: &mut fmt::Formatter<W>) -> fmt::Result {
        let DrawMonoid {
            path_ix,
            clip_ix,
            scene_offset,
            info_offset,
        } = *self.0;
        write!(
            f,
            "path_ix {path_ix} clip_ix {clip_ix} scene_offset {scene_offset} info_offset {info_offset}"
        )
    }
}

/// A sheet and its counts, as they are printed: the totals, a row for each draw tag, and the conversions. The row of an
/// end names the begin that it meets.
#[derive(Clone, Copy)]
pub struct Report<'a> {
    pub sheet: &'a Sheet,
    pub counts: &'a Counts,
}

impl fmt::Display for Report<'_> {
    fn fmt<W: fmt::Write>(&self, f: &mut fmt::Formatter<W>) -> fmt::Result {
        let PathMonoid {
            trans_ix,
            pathseg_ix,
            pathseg_offset,
            style_ix,
            path_ix,
        } = self.counts.paths;
        writeln!(
            f,
            "path_totals: trans_ix {trans_ix} pathseg_ix {pathseg_ix} pathseg_offset {pathseg_offset} style_ix {style_ix} path_ix {path_ix}"
        )?;
        writeln!(f, "draw_totals: {}", Draws(&self.counts.draws))?;
        let ClipBic { a, b } = self.counts.clip;
        writeln!(f, "clip: {a} {b}")?;
        let tags = &self.sheet.draw_tags;
        for (i, (tag, before)) in tags.iter().zip(&self.counts.rows).enumerate() {
            write!(f, "draw {i}: tag {:X} {}", tag.0, Draws(before))?;
            if *tag == DrawTag::END_CLIP {
                match begin_met(tags, i) {
                    Some(begin) => write!(f, " meets {begin}")?,
                    None => write!(f, " meets none")?,
                }
            }
            writeln!(f)?;
        }
        for single in &self.sheet.singles {
            let half = f32_to_f16(*single);
            writeln!(f, "f32_to_f16: {single:08X} {half:04X}")?;
        }
        for half in &self.sheet.halves {
            let single = f16_to_f32(*half);
            writeln!(f, "f16_to_f32: {half:04X} {single:08X}")?;
        }
        Ok(())
    }
}
