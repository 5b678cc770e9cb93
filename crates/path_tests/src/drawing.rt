// What the tests draw with.
use geometry::points::Point;
use monoid::path::PathTag;
use path::open_path::OpenPath;
use path::state::{Call, Declined, Step, Used};

pub const FILL: bool = true;

pub const STROKE: bool = false;

pub fn at(x: u32, y: u32) -> Point {
    Point { x, y }
}

// Entries that no path has written yet.
pub fn blank_tags() -> [PathTag; 16] {
    [PathTag(0xaa); 16]
}

pub fn blank_words() -> [u32; 32] {
    [0xaaaa_aaaa; 32]
}

// Takes the steps of a list.
pub fn take_all(
    path: &mut OpenPath,
    tags: &mut [PathTag],
    words: &mut [u32],
    steps: &[Step],
) -> Result<(), Declined> {
    for step in steps {
        path.try_take(tags, words, *step)?;
    }
    Ok(())
}

// Makes a call, which is data, by a match: what is in use then, or why it was declined.
pub fn make(
    mut path: OpenPath,
    tags: &mut [PathTag],
    words: &mut [u32],
    call: Call,
) -> Result<Used, Declined> {
    match call {
        Call::Take(step) => {
            path.try_take(tags, words, step)?;
            Ok(path.used())
        }
        Call::Finish(insert_path_marker) => match path.try_finish(tags, words, insert_path_marker) {
            Ok(f) => Ok(f.used),
            Err(back) => Err(back.1),
        },
    }
}

// Whether the first tags are the expected ones.
pub fn tags_are(tags: &[PathTag], used: usize, expected: &[u8]) -> bool {
    used == expected.len()
        && used <= tags.len()
        && tags
            .iter()
            .zip(expected)
            .all(|(tag, bits)| *tag == PathTag(*bits))
}

// Whether the first words are the expected ones.
pub fn words_are(words: &[u32], used: usize, expected: &[u32]) -> bool {
    used == expected.len() && words.starts_with(expected)
}
