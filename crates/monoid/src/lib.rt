// Counting tags: records that combine, and what a list of tags comes to.
#![tactic(auto)]

ghost use Rattle.std.specs.Prelude.{◌≡◌, ◌+◌, ◌^◌, ◌<◌, ◌≤◌, List, length};
ghost use Rattle.monoid.specs.Answers.{number, most, FewEnough, Combined};
ghost use Rattle.monoid.specs.Laws.{Laws, reduced};

pub mod clip;
pub mod draw;
pub mod path;
pub mod reduction;
pub mod worked;

/// Why a record or a table was not made.
#[derive(Clone, Copy, Debug, PartialEq, Eq)]
pub enum CountError {
    /// The combined counts do not fit the record.
    DoesNotFit = 10,
    /// The table has fewer rows than there are sources.
    ShortTable = 11,
    /// There are more than `MAX_SOURCES` sources.
    TooManySources = 12,
}

impl CountError {
    /// The refusal's number.
    pub fn number(self) -> u32
        ensures { result ≡ number self }
    {
        self as u32
    }
}

/// The most sources that one reduction or table takes.
pub const MAX_SOURCES: usize = 1_048_576;

/// Refuses more than `MAX_SOURCES` sources.
pub fn few_enough(sources: usize) -> Result<(), CountError>
    ensures { FewEnough sources result }
{
    if sources > MAX_SOURCES {
        return Err(CountError::TooManySources);
    }
    Ok(())
}

/// A kind of record that counts sources and can be combined.
pub trait Monoid: Copy {
    /// What a record is made from.
    type SourceValue: Copy;

    // what a record stands for: numbers without bound
    ghost Meaning: { Type 0 };

    ghost meaning: { Self → Meaning };

    ghost source: { Self.SourceValue → Meaning };

    ghost empty: { Meaning };

    ghost op: { Meaning → Meaning → Meaning };

    // which meanings a record can have
    ghost Fits: { Meaning → Type 0 };

    /// The record of no source.
    fn identity() -> Self
        ensures { meaning result ≡ empty };

    /// The record of one source.
    fn new(value: Self::SourceValue) -> Self
        ensures { meaning result ≡ source value };

    /// This record and then the other, or the refusal where the result does not fit.
    fn combine(&self, other: &Self) -> Result<Self, CountError>
        ensures { Combined meaning Fits (op (meaning self.now) (meaning other.now)) result };

    /// This record and then the other, where the result is known to fit.
    // A body of its own for each kind: as `self.combine(other).unwrap()`, stated once, a reduction took 2 to 16 times as
    // long. Nor is `combine` shorter by a question whether a sum fits, with each field again.
    fn combine_fitting(&self, other: &Self) -> Self
        requires { Fits (op (meaning self.now) (meaning other.now)) }
        ensures { meaning result ≡ op (meaning self.now) (meaning other.now) };

    ghost monoid: { Laws empty op };

    ghost few: { (ss : List Self.SourceValue) → length ss ≤ most → Fits (reduced empty op source ss) };
}

// The sum of two counts, or the refusal.
fn sum(a: u32, b: u32) -> Result<u32, CountError>
    ensures { Combined (λ x. x) (λ n. n < 2 ^ 32) (a + b) result }
{
    a.checked_add(b).ok_or(CountError::DoesNotFit)
}
