// The calls that draw on an open path.
ghost use Rattle.std.specs.Prelude.{◌≡◌, ◌≤◌, true, [], ◌∷◌, length, Some, OnOk, IfOk, IfErr};
ghost use Rattle.values.specs.declared.error.Stream.TheVariants as Of;
ghost use Rattle.values.specs.declared.error.EncodeError.TheVariants as Error;
ghost use Rattle.values.specs.Streams.{room};
ghost use Rattle.values.specs.Errors.{short, unless, or_else};
ghost use Rattle.encoding.specs.Promises.{OnPath};
ghost use Rattle.encoding.specs.Paths.{step_rule, move_rule, line_rule, quad_rule, cubic_rule, close_rule};
ghost use Rattle.encoding.specs.Inner.{lent_tags, lent_words, tags_used, words_used};

use crate::path_encoder::PathEncoder;
use crate::path_encoder::refusals::error_of;
use crate::streams::{held, room};
use geometry::curves::{Cubic, Line, Quad, point_of};
use geometry::numbers::all_finite;
use monoid::path::PathTag;
use path::open_path::{Close, Move, PathStep};
use std::ops::Range;
use values::error::{EncodeError, Stream};

// The five calls and their coordinates are the crate's, and the two streams are lent by the caller.
impl PathEncoder {
    // Declines for a stream that is shorter than its used length, and then for numbers that are not finite. Else
    // tells the part of each stream that begins with the path and does not pass the maximum.
    pub(super) fn admit(
        &self,
        path_tags: &[PathTag],
        path_data: &[u32],
        is_finite: bool,
    ) -> Result<(Range<usize>, Range<usize>), EncodeError>
        ensures finite { OnOk result (is_finite ≡ true) }
        ensures held { OnOk result ((tags_used self.now ≤ length path_tags.now) × (words_used self.now ≤ length path_data.now)) }
        ensures lent { IfOk result (λ parts. (parts.0 ≡ lent_tags self.now (length path_tags.now)) × (parts.1 ≡ lent_words self.now (length path_data.now))) }
        ensures declined { IfErr result (λ e. or_else (short (room Of.PathTags (tags_used self.now) (length path_tags.now) ∷ room Of.PathData (words_used self.now) (length path_data.now) ∷ [])) (unless is_finite Error.NotFinite) ≡ Some e) }
    {
        let tags = self.encoding.path_tags;
        let words = self.encoding.path_data;
        let used = self.path.used();
        held(
            room(Stream::PathTags, tags + used.tags, path_tags),
            room(Stream::PathData, words + used.words, path_data),
        )?;
        if !is_finite {
            return Err(EncodeError::NotFinite);
        }
        let tags_end = path_tags.len().min(Stream::PathTags.max_entries());
        let words_end = path_data.len().min(Stream::PathData.max_entries());
        Ok((tags..tags_end, words..words_end))
    }

    // Takes a step.
    fn take<S: PathStep>(
        &mut self,
        path_tags: &mut [PathTag],
        path_data: &mut [u32],
        is_finite: bool,
        step: S,
    ) -> Result<(), EncodeError>
        ensures { OnPath (step_rule is_finite (S.step step)) self.old path_tags.old path_data.old result self.new path_tags.new path_data.new }
    {
        let (tags, words) = self.admit(path_tags, path_data, is_finite)?;
        self.path
            .try_take(&mut path_tags[tags], &mut path_data[words], step)
            .map_err(error_of)
    }

    /// Begins another subpath.
    pub fn move_to(
        &mut self,
        path_tags: &mut [PathTag],
        path_data: &mut [u32],
        x: f32,
        y: f32,
    ) -> Result<(), EncodeError>
        ensures { OnPath (move_rule x y) self.old path_tags.old path_data.old result self.new path_tags.new path_data.new }
    {
        let is_finite = all_finite(&[x, y]);
        self.take(path_tags, path_data, is_finite, Move(point_of(x, y)))
    }

    /// Draws a line.
    pub fn line_to(
        &mut self,
        path_tags: &mut [PathTag],
        path_data: &mut [u32],
        x: f32,
        y: f32,
    ) -> Result<(), EncodeError>
        ensures { OnPath (line_rule x y) self.old path_tags.old path_data.old result self.new path_tags.new path_data.new }
    {
        let is_finite = all_finite(&[x, y]);
        self.take(path_tags, path_data, is_finite, Line(point_of(x, y)))
    }

    /// Draws a quadratic.
    pub fn quad_to(
        &mut self,
        path_tags: &mut [PathTag],
        path_data: &mut [u32],
        x1: f32,
        y1: f32,
        x2: f32,
        y2: f32,
    ) -> Result<(), EncodeError>
        ensures { OnPath (quad_rule x1 y1 x2 y2) self.old path_tags.old path_data.old result self.new path_tags.new path_data.new }
    {
        let is_finite = all_finite(&[x1, y1, x2, y2]);
        let quad = Quad(point_of(x1, y1), point_of(x2, y2));
        self.take(path_tags, path_data, is_finite, quad)
    }

    /// Draws a cubic.
    pub fn cubic_to(
        &mut self,
        path_tags: &mut [PathTag],
        path_data: &mut [u32],
        x1: f32,
        y1: f32,
        x2: f32,
        y2: f32,
        x3: f32,
        y3: f32,
    ) -> Result<(), EncodeError>
        ensures { OnPath (cubic_rule x1 y1 x2 y2 x3 y3) self.old path_tags.old path_data.old result self.new path_tags.new path_data.new }
    {
        let is_finite = all_finite(&[x1, y1, x2, y2, x3, y3]);
        let cubic = Cubic(point_of(x1, y1), point_of(x2, y2), point_of(x3, y3));
        self.take(path_tags, path_data, is_finite, cubic)
    }

    /// Closes the subpath.
    pub fn close(
        &mut self,
        path_tags: &mut [PathTag],
        path_data: &mut [u32],
    ) -> Result<(), EncodeError>
        ensures { OnPath close_rule self.old path_tags.old path_data.old result self.new path_tags.new path_data.new }
    {
        self.take(path_tags, path_data, true, Close)
    }
}
