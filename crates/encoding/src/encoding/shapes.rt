// The empty shape.
ghost use Rattle.encoding.specs.Elements.{OnPaths, empty_shape_rule};

use crate::encoding::Encoding;
use crate::streams::{append, fits, held, room};
use monoid::path::PathTag;
use values::error::{EncodeError, Stream};

// A line that ends its subpath.
const LAST_LINE: PathTag = PathTag(PathTag::LINE_TO_F32.0 + PathTag::SUBPATH_END_BIT);

impl Encoding {
    /// Encodes a path of one line that has no length.
    pub fn encode_empty_shape(
        &mut self,
        path_tags: &mut [PathTag],
        path_data: &mut [u32],
    ) -> Result<(), EncodeError>
        ensures { OnPaths empty_shape_rule self.old path_tags.old path_data.old result self.new path_tags.new path_data.new }
    {
        held(
            room(Stream::PathTags, self.path_tags, path_tags),
            room(Stream::PathData, self.path_data, path_data),
        )?;
        fits(
            room(Stream::PathTags, self.path_tags + 2, path_tags),
            room(Stream::PathData, self.path_data + 4, path_data),
        )?;
        self.path_tags = append(path_tags, self.path_tags, &[LAST_LINE, PathTag::PATH]);
        self.path_data = append(path_data, self.path_data, &[0, 0, 0, 0]);
        self.n_path_segments += 1;
        self.n_paths += 1;
        Ok(())
    }
}
