// Used entries of a stream, and the checks of the streams that a call is lent.
ghost use Rattle.std.specs.Prelude.{◌≡◌, ◌+◌, ◌≤◌, [], ◌∷◌, ◌++◌, length, take, None, Some, OnOk, IfErr};
ghost use Rattle.values.specs.Streams.{room, Fit};
ghost use Rattle.values.specs.Errors.{short, full};
ghost use Rattle.values.specs.Settings.{is_new};

use values::error::{EncodeError, Stream};
use values::room::Room;
use values::setting::Setting;

// Writes entries after the used ones, and says how many are used then.
pub(crate) fn append<T: Copy>(stream: &mut [T], used: usize, entries: &[T]) -> usize
    requires { used + length entries.now ≤ length stream.old }
    ensures count { result ≡ used + length entries.now }
    ensures holds { take (used + length entries.now) stream.new ≡ take used stream.old ++ entries.now }
{
    let end = used + entries.len();
    let part = &mut stream[used..end];
    part.copy_from_slice(entries);
    end
}

// Whether a value is to be written: it is forced, or the last of the used ones is not the same.
#[tactic(auto, using(crate::proofs::Entries::last_entry))]
pub(crate) fn is_new<T: Setting>(forced: bool, stream: &[T], used: usize, value: T) -> bool
    requires { used ≤ length stream.now }
    ensures { result ≡ is_new T.Setting.same forced (take used stream.now) value }
{
    forced
        || stream[..used]
            .last()
            .is_none_or(|latest| !latest.is_same(value))
}

// How much of a stream is used, if it is these entries.
pub(crate) fn room<T>(stream: Stream, used: usize, entries: &[T]) -> Room
    ensures { result ≡ room stream used (length entries.now) }
{
    Room {
        stream,
        used,
        space: entries.len(),
    }
}

// The four calls that append make these two checks, their own, if any, between them: what is common is said by `held`,
// `fits` and `append`, and a closure for the rest would hide the order.

// Declines for the first of two streams that is shorter than its used length.
pub(crate) fn held(a: Room, b: Room) -> Result<(), EncodeError>
    ensures passed { OnOk result ((short (a ∷ b ∷ []) ≡ None) × (a.used ≤ a.space) × (b.used ≤ b.space)) }
    ensures declined { IfErr result (λ e. short (a ∷ b ∷ []) ≡ Some e) }
{
    if a.space < a.used {
        Err(EncodeError::ShortStream(a.stream))
    } else if b.space < b.used {
        Err(EncodeError::ShortStream(b.stream))
    } else {
        Ok(())
    }
}

// Declines for the first of two streams that would be used past its end or its maximum. It has a test and a refusal of
// its own, so that one function for both would take the two as closures.
pub(crate) fn fits(a: Room, b: Room) -> Result<(), EncodeError>
    ensures passed { OnOk result ((full (a ∷ b ∷ []) ≡ None) × Fit a × Fit b) }
    ensures declined { IfErr result (λ e. full (a ∷ b ∷ []) ≡ Some e) }
{
    if a.space < a.used || a.stream.max_entries() < a.used {
        Err(EncodeError::FullStream(a.stream))
    } else if b.space < b.used || b.stream.max_entries() < b.used {
        Err(EncodeError::FullStream(b.stream))
    } else {
        Ok(())
    }
}
