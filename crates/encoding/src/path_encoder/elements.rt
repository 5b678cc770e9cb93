// A path from a list of elements.
ghost use Rattle.encoding.specs.Promises.{OnPath};
ghost use Rattle.encoding.specs.Elements.{element_rule, OnElements, OnList};

use crate::encoding::Encoding;
use crate::path_encoder::PathEncoder;
use monoid::path::PathTag;
use std::mem::replace;
use values::element::{ElementError, PathEl};
use values::error::EncodeError;

impl PathEncoder {
    /// Makes the call that belongs to an element.
    pub fn encode_element(
        &mut self,
        path_tags: &mut [PathTag],
        path_data: &mut [u32],
        element: PathEl,
    ) -> Result<(), EncodeError>
        ensures { OnPath (element_rule element) self.old path_tags.old path_data.old result self.new path_tags.new path_data.new }
    {
        // A match, as an element is data.
        match element {
            PathEl::MoveTo(x, y) => self.move_to(path_tags, path_data, x, y),
            PathEl::LineTo(x, y) => self.line_to(path_tags, path_data, x, y),
            PathEl::QuadTo(x1, y1, x2, y2) => self.quad_to(path_tags, path_data, x1, y1, x2, y2),
            PathEl::CurveTo(x1, y1, x2, y2, x3, y3) => {
                self.cubic_to(path_tags, path_data, x1, y1, x2, y2, x3, y3)
            }
            PathEl::ClosePath => self.close(path_tags, path_data),
        }
    }
}

// Draws the elements and finishes the path, which is given up where a step is declined.
fn draw_elements(
    mut path: PathEncoder,
    path_tags: &mut [PathTag],
    path_data: &mut [u32],
    elements: &[PathEl],
) -> Result<(Encoding, u32), (ElementError, Encoding)>
    ensures { OnElements elements.now path path_tags.old path_data.old result path_tags.new path_data.new }
{
    for (index, element) in elements.iter().enumerate() {
        if let Err(error) = path.encode_element(path_tags, path_data, *element) {
            return Err((ElementError { error, index }, path.abandon()));
        }
    }
    let index = elements.len();
    match path.finish(path_tags, path_data, true) {
        Ok(done) => Ok(done),
        Err((error, path)) => Err((ElementError { error, index }, path.abandon())),
    }
}

impl Encoding {
    /// Encodes a path from its elements, with its tag, and says whether any segment was counted.
    pub fn encode_path_elements(
        &mut self,
        path_tags: &mut [PathTag],
        path_data: &mut [u32],
        elements: &[PathEl],
        is_fill: bool,
    ) -> Result<bool, ElementError>
        ensures { OnList elements.now is_fill self.old path_tags.old path_data.old result self.new path_tags.new path_data.new }
    {
        let encoding = replace(self, Encoding::new());
        let path = encoding.encode_path(is_fill);
        match draw_elements(path, path_tags, path_data, elements) {
            Ok((encoding, count)) => {
                *self = encoding;
                Ok(count != 0)
            }
            Err((error, encoding)) => {
                *self = encoding;
                Err(error)
            }
        }
    }
}
