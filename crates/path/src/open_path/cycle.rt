// The calls on an open path that has space for them. `move_to`, `line_to`, `quad_to` and `close` call one another, as the
// crate's do: a marker is drawn by the calls that draw. Calls of a cycle have the same type parameters, so each kind of
// segment has its own; `cubic_to` is like them, though no marker needs it.
// The path and the slices that it is lent go one by one. In one struct they prove, and a line that goes on takes as long,
// but a quadratic takes 6 percent longer and a triangle that is closed 13, as each call reads the struct from memory.
ghost use Rattle.std.specs.Prelude.{◌≡◌, ◌≤◌, ◌≢◌, length};
ghost use Rattle.geometry.specs.declared.points.Segment.TheVariants as Of;
ghost use Rattle.path.specs.declared.state.PathState.TheVariants.{Start, MoveTo, NonemptySubpath};
ghost use Rattle.path.specs.Rules.{write, put, join, draw, begin, drop_move, mark_end, put_marker, close as close_rule, leave, move_to, segment_to, finish as finish_rule};
ghost use Rattle.path.specs.Opening.{draws, opened};
ghost use Rattle.path.specs.View.{lent, view, Ready, Does};

use crate::entries::{Written, end_last, end_path, last_point, write_point, write_tag};
use crate::open_path::OpenPath;
use crate::state::PathState;
use geometry::curves::{Cubic, Curve, Line, Quad};
use geometry::points::Point;
use monoid::path::PathTag;

impl OpenPath {
    // Writes a segment.
    fn write<C: Written>(&mut self, tags: &mut [PathTag], words: &mut [u32], s: C)
        requires { Ready (write (C.Curve.segment s)) (lent self.old tags.old words.old) }
        ensures { Does (write (C.Curve.segment s)) (lent self.old tags.old words.old) (lent self.new tags.new words.new) }
    {
        self.words = s.write_points(words, self.words);
        self.tags = write_tag(tags, self.tags, s.tag());
        self.state = PathState::NonemptySubpath;
    }

    // Writes a segment, unless it is too short. Inlined, a line that goes on takes 7.0 ns and not 8.9.
    #[inline(always)]
    fn put<C: Written>(&mut self, tags: &mut [PathTag], words: &mut [u32], s: C)
        requires ready { Ready (put (C.Curve.segment s)) (lent self.old tags.old words.old) }
        requires point { 2 ≤ self.old.words }
        ensures { Does (put (C.Curve.segment s)) (lent self.old tags.old words.old) (lent self.new tags.new words.new) }
    {
        if s.is_short(last_point(&words[..self.words])) {
            return;
        }
        self.write(tags, words, s);
    }

    // Writes the line back to the first point, unless the path is there.
    fn join_first(&mut self, tags: &mut [PathTag], words: &mut [u32])
        requires ready { Ready join (lent self.old tags.old words.old) }
        requires point { 2 ≤ self.old.words }
        ensures { Does join (lent self.old tags.old words.old) (lent self.new tags.new words.new) }
    {
        if last_point(&words[..self.words]) == self.first_point {
            return;
        }
        self.write(tags, words, Line(self.first_point));
    }

    // Draws a segment in a subpath: the first needs a tangent.
    fn draw<C: Written>(&mut self, tags: &mut [PathTag], words: &mut [u32], s: C)
        requires ready { Ready (draw (C.Curve.segment s)) (lent self.old tags.old words.old) }
        requires begun { self.old.state ≢ Start }
        ensures { Does (draw (C.Curve.segment s)) (lent self.old tags.old words.old) (lent self.new tags.new words.new) }
    {
        match self.state {
            PathState::MoveTo => {
                let Some(t) = s.tangent_end(self.first_point) else {
                    return;
                };
                self.first_start_tangent_end = t;
                self.put(tags, words, s);
            }
            _ => self.put(tags, words, s),
        }
    }

    // Begins a subpath.
    fn begin(&mut self, tags: &mut [PathTag], words: &mut [u32], p: Point)
        requires { Ready (begin p) (lent self.old tags.old words.old) }
        ensures { Does (begin p) (lent self.old tags.old words.old) (lent self.new tags.new words.new) }
    {
        self.words = write_point(words, self.words, p);
        self.first_point = p;
        self.state = PathState::MoveTo;
        self.moved = true;
    }

    // Takes back the first point of a subpath that has no segment.
    fn drop_move(&mut self, tags: &mut [PathTag], words: &mut [u32])
        requires ready { Ready drop_move (lent self.old tags.old words.old) }
        requires moved { self.old.state ≡ MoveTo }
        ensures { Does drop_move (lent self.old tags.old words.old) (lent self.new tags.new words.new) }
    {
        self.state = PathState::Start;
        self.words -= 2;
    }

    // Ends the open subpath at its last tag.
    fn mark_end(&mut self, tags: &mut [PathTag], words: &mut [u32])
        requires ready { Ready mark_end (lent self.old tags.old words.old) }
        requires drawn { self.old.state ≡ NonemptySubpath }
        ensures { Does mark_end (lent self.old tags.old words.old) (lent self.new tags.new words.new) }
    {
        end_last(&mut tags[..self.tags]);
        self.state = PathState::Start;
    }

    // Closes the subpath.
    #[cycle(path_calls)]
    pub(super) fn close(&mut self, tags: &mut [PathTag], words: &mut [u32])
        requires { Ready close_rule (lent self.old tags.old words.old) }
        ensures { Does close_rule (lent self.old tags.old words.old) (lent self.new tags.new words.new) }
    {
        match self.state {
            PathState::Start => {}
            PathState::MoveTo => self.drop_move(tags, words),
            PathState::NonemptySubpath => {
                self.join_first(tags, words);
                if !self.is_fill {
                    self.insert_marker(tags, words, true);
                }
                self.mark_end(tags, words);
            }
        }
    }

    // Marks the end of a stroke's subpath, which is closed or open.
    #[cycle(path_calls)]
    fn insert_marker(&mut self, tags: &mut [PathTag], words: &mut [u32], is_closed: bool)
        requires ready { Ready (put_marker is_closed) (lent self.old tags.old words.old) }
        requires drawn { self.old.state ≡ NonemptySubpath }
        ensures { Does (put_marker is_closed) (lent self.old tags.old words.old) (lent self.new tags.new words.new) }
    {
        let tangent_end = self.first_start_tangent_end;
        if is_closed {
            self.line_to(tags, words, tangent_end);
        } else {
            self.quad_to(tags, words, self.first_point, tangent_end);
        }
    }

    // Leaves the subpath: a fill closes it, and a stroke marks it as open.
    #[cycle(path_calls)]
    fn leave(&mut self, tags: &mut [PathTag], words: &mut [u32])
        requires { Ready leave (lent self.old tags.old words.old) }
        ensures { Does leave (lent self.old tags.old words.old) (lent self.new tags.new words.new) }
    {
        if self.is_fill {
            self.close(tags, words);
            return;
        }
        match self.state {
            PathState::Start => {}
            PathState::MoveTo => self.drop_move(tags, words),
            PathState::NonemptySubpath => {
                self.insert_marker(tags, words, false);
                self.mark_end(tags, words);
            }
        }
    }

    // Begins another subpath.
    #[cycle(path_calls)]
    pub(super) fn move_to(&mut self, tags: &mut [PathTag], words: &mut [u32], p: Point)
        requires { Ready (move_to p) (lent self.old tags.old words.old) }
        ensures { Does (move_to p) (lent self.old tags.old words.old) (lent self.new tags.new words.new) }
    {
        self.leave(tags, words);
        self.begin(tags, words, p);
    }

    // Sees that a subpath is open for a segment to `end`: false if the segment is a move.
    #[cycle(path_calls)]
    fn open_subpath(&mut self, tags: &mut [PathTag], words: &mut [u32], end: Point) -> bool
        requires { Ready (opened end) (lent self.old tags.old words.old) }
        ensures draws { result ≡ draws (view (lent self.old tags.old words.old)) }
        ensures does { Does (opened end) (lent self.old tags.old words.old) (lent self.new tags.new words.new) }
    {
        match self.state {
            PathState::Start => {
                if self.moved {
                    self.move_to(tags, words, self.first_point);
                    true
                } else {
                    self.move_to(tags, words, end);
                    false
                }
            }
            _ => true,
        }
    }

    // Draws a line.
    #[cycle(path_calls)]
    pub(super) fn line_to(&mut self, tags: &mut [PathTag], words: &mut [u32], p: Point)
        requires { Ready (segment_to (Of.Line p)) (lent self.old tags.old words.old) }
        ensures { Does (segment_to (Of.Line p)) (lent self.old tags.old words.old) (lent self.new tags.new words.new) }
    {
        if self.open_subpath(tags, words, p) {
            self.draw(tags, words, Line(p));
        }
    }

    // Draws a line, and at once where it goes on from segments: the common case.
    #[inline(always)]
    pub(super) fn line_on(&mut self, tags: &mut [PathTag], words: &mut [u32], p: Point)
        requires { Ready (segment_to (Of.Line p)) (lent self.old tags.old words.old) }
        ensures { Does (segment_to (Of.Line p)) (lent self.old tags.old words.old) (lent self.new tags.new words.new) }
    {
        match self.state {
            PathState::NonemptySubpath => self.put(tags, words, Line(p)),
            _ => self.line_to(tags, words, p),
        }
    }

    // Draws a quadratic.
    #[cycle(path_calls)]
    pub(super) fn quad_to(&mut self, tags: &mut [PathTag], words: &mut [u32], p: Point, q: Point)
        requires { Ready (segment_to (Of.Quad p q)) (lent self.old tags.old words.old) }
        ensures { Does (segment_to (Of.Quad p q)) (lent self.old tags.old words.old) (lent self.new tags.new words.new) }
    {
        if self.open_subpath(tags, words, q) {
            self.draw(tags, words, Quad(p, q));
        }
    }

    // Draws a cubic.
    pub(super) fn cubic_to(
        &mut self,
        tags: &mut [PathTag],
        words: &mut [u32],
        p: Point,
        q: Point,
        r: Point,
    )
        requires { Ready (segment_to (Of.Cubic p q r)) (lent self.old tags.old words.old) }
        ensures { Does (segment_to (Of.Cubic p q r)) (lent self.old tags.old words.old) (lent self.new tags.new words.new) }
    {
        if self.open_subpath(tags, words, r) {
            self.draw(tags, words, Cubic(p, q, r));
        }
    }

    // Leaves the subpath and ends the path: how many segments it counted.
    pub(super) fn finish(
        &mut self,
        tags: &mut [PathTag],
        words: &mut [u32],
        insert_path_marker: bool,
    ) -> usize
        requires { Ready (finish_rule insert_path_marker) (lent self.old tags.old words.old) }
        ensures count { result ≡ length (leave (view (lent self.old tags.old words.old))).own.tags }
        ensures does { Does (finish_rule insert_path_marker) (lent self.old tags.old words.old) (lent self.new tags.new words.new) }
    {
        self.leave(tags, words);
        let count = self.tags;
        self.tags = end_path(tags, count, insert_path_marker);
        count
    }
}
