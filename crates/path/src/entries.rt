// Writing to the entries that a path is lent.
ghost use Rattle.std.specs.Prelude.{◌≡◌, ◌+◌, ◌-◌, ◌<◌, ◌≤◌, [], ◌∷◌, ◌++◌, length, take};
ghost use Rattle.path.specs.Entries.{point_words, segment_words, tag_of, end_last, finished, last_point};

use geometry::curves::{Cubic, Curve, Line, Quad};
use geometry::points::Point;
use monoid::path::PathTag;

// Writes a point after the first `at` words, and says how many are used then. This and `write_tag` are no `append` shared
// with the streams of a plan: that would be a public call that asks something of its callers. A pair that is copied whole
// is put together in memory first, and a path of moves took 1.3 times as long.
pub(crate) fn write_point(words: &mut [u32], at: usize, p: Point) -> usize
    requires { at + 2 ≤ length words.old }
    ensures used { result ≡ at + 2 }
    ensures holds { take result words.new ≡ take at words.old ++ point_words p }
{
    let place = &mut words[at..at + 2];
    place[0] = p.x;
    place[1] = p.y;
    at + 2
}

// A segment by what is written of it.
pub(crate) trait Written: Curve {
    // Its tag.
    fn tag(self) -> PathTag
        ensures { result ≡ tag_of (Self.Curve.segment self) };

    // Writes its points after the first `at` words, and says how many are used then.
    fn write_points(self, words: &mut [u32], at: usize) -> usize
        requires { at + length (segment_words (Self.Curve.segment self)) ≤ length words.old }
        ensures used { result ≡ at + length (segment_words (Self.Curve.segment self)) }
        ensures holds { take result words.new ≡ take at words.old ++ segment_words (Self.Curve.segment self) };
}

impl Written for Line {
    fn tag(self) -> PathTag {
        PathTag::LINE_TO_F32
    }

    fn write_points(self, words: &mut [u32], at: usize) -> usize {
        let Line(p) = self;
        write_point(words, at, p)
    }
}

impl Written for Quad {
    fn tag(self) -> PathTag {
        PathTag::QUAD_TO_F32
    }

    fn write_points(self, words: &mut [u32], at: usize) -> usize {
        let Quad(p, q) = self;
        let past = write_point(words, at, p);
        write_point(words, past, q)
    }
}

impl Written for Cubic {
    fn tag(self) -> PathTag {
        PathTag::CUBIC_TO_F32
    }

    fn write_points(self, words: &mut [u32], at: usize) -> usize {
        let Cubic(p, q, r) = self;
        let past = write_point(words, at, p);
        let later = write_point(words, past, q);
        write_point(words, later, r)
    }
}

// Writes a tag after the first `at`, by its place: a proof knows no entry of a slice after `get_mut`.
pub(crate) fn write_tag(tags: &mut [PathTag], at: usize, tag: PathTag) -> usize
    requires { at < length tags.old }
    ensures used { result ≡ at + 1 }
    ensures holds { take result tags.new ≡ take at tags.old ++ tag ∷ [] }
{
    tags[at] = tag;
    at + 1
}

// Makes the last tag end its subpath, by its place: a proof knows no entry of a slice after `last_mut`.
pub(crate) fn end_last(tags: &mut [PathTag])
    requires { 0 < length tags.old }
    ensures { tags.new ≡ end_last tags.old }
{
    tags[tags.len() - 1].set_subpath_end();
}

// Ends the path of the first `n` tags, if there is one: the last ends its subpath, and the path's tag may follow.
pub(crate) fn end_path(tags: &mut [PathTag], n: usize, insert_path_marker: bool) -> usize
    requires fits { n ≤ length tags.old }
    requires room { length (finished insert_path_marker (take n tags.old)) ≤ length tags.old }
    ensures used { result ≡ length (finished insert_path_marker (take n tags.old)) }
    ensures holds { take result tags.new ≡ finished insert_path_marker (take n tags.old) }
{
    if n == 0 {
        return 0;
    }
    end_last(&mut tags[..n]);
    if insert_path_marker {
        return write_tag(tags, n, PathTag::PATH);
    }
    n
}

// The point in the last two words, by their places: a pattern would have an arm that is never taken.
pub(crate) fn last_point(words: &[u32]) -> Point
    requires { 2 ≤ length words.now }
    ensures { result ≡ last_point words.now }
{
    Point {
        x: words[words.len() - 2],
        y: words[words.len() - 1],
    }
}
