// Reduction and the prefix table, for every kind of record.
ghost use Rattle.std.specs.Prelude.{◌≡◌, ◌+◌, ◌<◌, ◌≤◌, IfOk, Result};
ghost use Rattle.monoid.specs.declared.CountError.{CountError};
ghost use Rattle.monoid.specs.Answers.{Reduced, Tabled};
ghost use Rattle.monoid.specs.Bracketings.{Bracketing, leaves, Gives, Agrees};
ghost use Rattle.monoid.specs.Laws.{reduced};

use crate::{Monoid, few_enough};

/// The record of all sources, combined in their order. However they are bracketed, no combination is declined and the
/// meaning is the same.
pub fn reduce<M: Monoid>(sources: &[M::SourceValue]) -> Result<M, crate::CountError>
    ensures reduces { Reduced M.meaning (reduced M.empty M.op M.source) sources.now result }
    ensures bracketings { IfOk result (λ x. (t : Bracketing M.SourceValue) → leaves t ≡ sources.now → (a : Result M CountError) → Gives M.meaning M.empty M.op M.source M.Fits t a → Agrees M.meaning x a) }
{
    few_enough(sources.len())?;
    let mut total = M::identity();
    for s in sources {
        total = total.combine_fitting(&M::new(*s));
    }
    Ok(total)
}

/// Row i becomes the record of the sources before i. Rows past the sources stay, and all rows of a declined call.
pub fn prefixes<M: Monoid>(
    sources: &[M::SourceValue],
    table: &mut [M],
) -> Result<(), crate::CountError>
    ensures { Tabled M.meaning (reduced M.empty M.op M.source) sources.now table.old table.new result }
{
    few_enough(sources.len())?;
    if table.len() < sources.len() {
        return Err(crate::CountError::ShortTable);
    }
    let mut total = M::identity();
    // Rows are written by index, as a proof knows no row of a table that `iter_mut` has lent out.
    for (i, s) in sources.iter().enumerate() {
        table[i] = total;
        total = total.combine_fitting(&M::new(*s));
    }
    Ok(())
}
