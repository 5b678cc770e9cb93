// A path is finished.
ghost use Rattle.std.specs.Prelude.{◌≡◌, if◌then◌else◌, nat_eq};
ghost use Rattle.encoding.specs.Sheet.{Streams, sheet};
ghost use Rattle.encoding.specs.Promises.{OnFinish};
ghost use Rattle.encoding.specs.Paths.{finish_rule};
ghost use Rattle.encoding.specs.Inner.{FitsBehind, joined};

use crate::encoding::Encoding;
use crate::path_encoder::PathEncoder;
use crate::path_encoder::refusals::error_of;
use monoid::path::PathTag;
use path::state::Finished;
use values::error::EncodeError;

// The Encoding with a finished path's entries in use, if any segment was counted, and the count.
fn join(mut encoding: Encoding, finished: Finished, insert_path_marker: bool) -> (Encoding, u32)
    requires { FitsBehind encoding finished insert_path_marker }
    ensures sheet { (m : Streams) → sheet result.0 m ≡ (if nat_eq finished.segments 0 then sheet encoding m else joined encoding finished insert_path_marker m) }
    ensures count { result.1 ≡ finished.segments }
{
    if finished.segments == 0 {
        return (encoding, 0);
    }
    let count = finished.segments as u32;
    encoding.path_tags += finished.used.tags;
    encoding.path_data += finished.used.words;
    encoding.n_path_segments += count;
    encoding.n_paths += insert_path_marker as u32;
    (encoding, count)
}

impl PathEncoder {
    /// Ends the path, and writes its tag if that is asked for. Gives back the Encoding, with the number of
    /// segments that were counted, or, declined, the path.
    pub fn finish(
        self,
        path_tags: &mut [PathTag],
        path_data: &mut [u32],
        insert_path_marker: bool,
    ) -> Result<(Encoding, u32), (EncodeError, PathEncoder)>
        ensures { OnFinish (finish_rule insert_path_marker) self path_tags.old path_data.old result path_tags.new path_data.new }
    {
        let (tags, words) = match self.admit(path_tags, path_data, true) {
            Ok(parts) => parts,
            Err(error) => return Err((error, self)),
        };
        let PathEncoder { encoding, path } = self;
        match path.try_finish(
            &mut path_tags[tags],
            &mut path_data[words],
            insert_path_marker,
        ) {
            Ok(finished) => Ok(join(encoding, finished, insert_path_marker)),
            Err((path, declined)) => Err((error_of(declined), PathEncoder { encoding, path })),
        }
    }
}
