// An open path of an Encoding.
ghost use Rattle.std.specs.Prelude.{◌+◌, ◌≤◌};
ghost use Rattle.values.specs.Streams.{max_entries};
ghost use Rattle.values.specs.declared.error.Stream.TheVariants as Of;

use crate::encoding::Encoding;
use path::open_path::OpenPath;

mod calls;
mod elements;
mod finish;
mod opening;
mod refusals;

/// An open path, which holds the Encoding as it was when the path was opened. Only `finish` and `abandon`
/// give the Encoding back.
pub struct PathEncoder {
    encoding: Encoding,
    path: OpenPath,
    ghost few_tags: { encoding.path_tags + path.tags ≤ max_entries Of.PathTags },
    ghost few_words: { encoding.path_data + path.words ≤ max_entries Of.PathData },
}
