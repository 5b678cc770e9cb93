// A path is opened, and given up.
ghost use Rattle.std.specs.Prelude.{◌≡◌};
ghost use Rattle.encoding.specs.Sheet.{Streams, sheet};
ghost use Rattle.encoding.specs.Promises.{path_sheet};
ghost use Rattle.encoding.specs.Paths.{path_opened, path_abandoned};

use crate::encoding::Encoding;
use crate::path_encoder::PathEncoder;
use path::open_path::OpenPath;

impl Encoding {
    /// Opens a path. If it is a fill, all its subpaths are closed.
    pub fn encode_path(self, is_fill: bool) -> PathEncoder
        ensures { (m : Streams) → path_sheet result m ≡ path_opened is_fill (sheet self m) }
    {
        PathEncoder {
            encoding: self,
            path: OpenPath::new(is_fill),
        }
    }
}

impl PathEncoder {
    /// Gives up the path: the Encoding is as it was when the path was opened.
    pub fn abandon(self) -> Encoding
        ensures { (m : Streams) → sheet result m ≡ path_abandoned (path_sheet self m) }
    {
        let PathEncoder { encoding, path: _ } = self;
        encoding
    }
}
