// The text of a sheet.
ghost use Rattle.std.specs.Prelude.{ℕ, ◌≤◌};
ghost use Rattle.count.specs.Hexadecimal.{Writes, Reads};

use monoid::draw::DrawTag;
use monoid::path::PathTag;
use std::alloc::{AllocError, Global};
use thiserror::Error;

/// The tags of a sheet, and the patterns that are to be converted.
#[derive(Drop)]
pub struct Sheet {
    pub path_tags: Vec<PathTag>,
    pub draw_tags: Vec<DrawTag>,
    pub singles: Vec<u32>,
    pub halves: Vec<u16>,
}

/// What is wrong with a line.
#[derive(Clone, Copy, Debug, PartialEq, Eq, Error)]
pub enum Problem {
    #[error("expected 'path_tags:', 'draw_tags:', 'f32_to_f16:' or 'f16_to_f32:'")]
    UnknownLine,
    #[error("a path tag is a hex number of at most two digits")]
    NotAByte,
    #[error("a draw tag is a hex number of at most eight digits")]
    NotAWord,
    #[error("a single is a hex number of at most eight digits")]
    NotASingle,
    #[error("a half is a hex number of at most four digits")]
    NotAHalf,
}

/// Why a text is no sheet: the number of a line, from 1, and what is wrong there.
#[derive(Clone, Copy, Debug, PartialEq, Eq, Error)]
pub enum InputError {
    #[error("line {0}: {1}")]
    Line(usize, Problem),
    #[error("out of memory")]
    NoMemory(#[from(alloc)] AllocError),
}

// The number that hex digits write, if it has at most so many bits.
fn hex<const BITS: u32>(text: &str) -> Option<u32>
    requires { BITS ≤ 32 }
    ensures { Writes BITS text.now result }
{
    if text.starts_with('+') {
        return None;
    }
    let n = u32::from_str_radix(text, 16).ok()?;
    if u64::from(n) < 1 << BITS {
        Some(n)
    } else {
        None
    }
}

// What a line may list.
trait Entry: Copy {
    // The number that an entry is.
    ghost number: { Self → ℕ };

    // The most bits that one has.
    ghost bits: { ℕ };

    // The entry that a word writes, or what is wrong with it.
    fn read(word: &str) -> Result<Self, Problem>
        ensures { Reads number bits word.now result };
}

impl Entry for PathTag {
    ghost number = { λ t. t.0 };

    ghost bits = { 8 };

    fn read(word: &str) -> Result<PathTag, Problem> {
        let byte = hex::<8>(word).ok_or(Problem::NotAByte)?;
        Ok(PathTag(byte as u8))
    }
}

impl Entry for DrawTag {
    ghost number = { λ t. t.0 };

    ghost bits = { 32 };

    fn read(word: &str) -> Result<DrawTag, Problem> {
        Ok(DrawTag(hex::<32>(word).ok_or(Problem::NotAWord)?))
    }
}

// The pattern of a single.
impl Entry for u32 {
    ghost number = { λ t. t };

    ghost bits = { 32 };

    fn read(word: &str) -> Result<u32, Problem> {
        hex::<32>(word).ok_or(Problem::NotASingle)
    }
}

// The pattern of a half.
impl Entry for u16 {
    ghost number = { λ t. t };

    ghost bits = { 16 };

    fn read(word: &str) -> Result<u16, Problem> {
        let half = hex::<16>(word).ok_or(Problem::NotAHalf)?;
        Ok(half as u16)
    }
}

// The entries of a line, after those of earlier lines.
fn add_entries<T: Entry>(entries: &mut Vec<T>, text: &str, line: usize) -> Result<(), InputError> {
    for word in text.split_whitespace() {
        let entry = T::read(word).map_err(|problem| InputError::Line(line, problem))?;
        entries.push(entry)?;
    }
    Ok(())
}

// One line of a sheet. A blank line and one that begins with '#' hold nothing.
fn read_line(sheet: &mut Sheet, line: &str, number: usize) -> Result<(), InputError> {
    match line.split_once(':') {
        Some(("path_tags", list)) => add_entries(&mut sheet.path_tags, list, number),
        Some(("draw_tags", list)) => add_entries(&mut sheet.draw_tags, list, number),
        Some(("f32_to_f16", list)) => add_entries(&mut sheet.singles, list, number),
        Some(("f16_to_f32", list)) => add_entries(&mut sheet.halves, list, number),
        _ if line.is_empty() || line.starts_with('#') => Ok(()),
        _ => Err(InputError::Line(number, Problem::UnknownLine)),
    }
}

/// The sheet of a text, line by line, counted from 1.
pub fn read_sheet(heap: Global, text: &str) -> Result<Sheet, InputError> {
    let mut sheet = Sheet {
        path_tags: Vec::new(heap),
        draw_tags: Vec::new(heap),
        singles: Vec::new(heap),
        halves: Vec::new(heap),
    };
    for (i, line) in text.lines().enumerate() {
        read_line(&mut sheet, line.trim(), i.saturating_add(1))?;
    }
    Ok(sheet)
}

#[cfg(test)]
mod tests {
    use super::*;

    // How many tags of each kind the sheet of a text has.
    fn read(heap: Global, text: &str) -> Result<(usize, usize), InputError> {
        let sheet = read_sheet(heap, text)?;
        Ok((sheet.path_tags.len(), sheet.draw_tags.len()))
    }

    fn wrong(line: usize, problem: Problem) -> Result<(usize, usize), InputError> {
        Err(InputError::Line(line, problem))
    }

    #[test]
    fn lines(rt: HostRuntime) {
        let heap = rt.alloc();
        assert_eq!(rt; read(heap, ""), Ok((0, 0)));
        assert_eq!(rt;
            read(
                heap,
                "path_tags: 20 40\n\n# note\n  draw_tags: 2D4\npath_tags: 9",
            ),
            Ok((3, 1))
        );
        assert_eq!(rt;
            read(heap, "path_tags: 20\npath_tag: 40"),
            wrong(2, Problem::UnknownLine)
        );
        assert_eq!(rt;
            read(heap, "path_tags: 20 100"),
            wrong(1, Problem::NotAByte)
        );
        assert_eq!(rt;
            read(heap, "\n\npath_tags: 20 -1"),
            wrong(3, Problem::NotAByte)
        );
        assert_eq!(rt;
            read(heap, "draw_tags: 123456789"),
            wrong(1, Problem::NotAWord)
        );
        assert_eq!(rt; read(heap, "draw_tags: +44"), wrong(1, Problem::NotAWord));
        assert_eq!(rt;
            read(heap, "f16_to_f32: 3C01\nf32_to_f16: 3.0"),
            wrong(2, Problem::NotASingle)
        );
        assert_eq!(rt;
            read(heap, "f16_to_f32: 10000"),
            wrong(1, Problem::NotAHalf)
        );
    }

    // A note may hold a colon, a line without one is unknown, and a list ends with its line.
    #[test]
    fn colons(rt: HostRuntime) {
        let heap = rt.alloc();
        assert_eq!(rt; read(heap, "# path_tags: 20"), Ok((0, 0)));
        assert_eq!(rt; read(heap, "path_tags"), wrong(1, Problem::UnknownLine));
        assert_eq!(rt; read(heap, "path_tags:"), Ok((0, 0)));
        assert_eq!(rt;
            read(heap, "path_tags: 20: 40"),
            wrong(1, Problem::NotAByte)
        );
        assert_eq!(rt; read(heap, ":"), wrong(1, Problem::UnknownLine));
    }
}
