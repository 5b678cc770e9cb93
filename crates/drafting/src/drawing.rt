// The calls of a plan, made over streams of its own.
ghost use Rattle.std.specs.Prelude.{IfOk};
ghost use Rattle.drafting.specs.Drawing.{DrawnAs, HasRoom, Left};

use crate::room::Room;
use encoding::encoding::Encoding;
use monoid::draw::DrawTag;
use monoid::path::PathTag;
use replay::calls::{Answer, Call, Plan};
use replay::replay::replay;
use std::alloc::{AllocError, Global};
use values::style::Style;
use values::transform::Transform;

// Each stream keeps its free entries behind the used ones: the calls are lent it whole, and the Encoding has its length.

/// A plan that was drawn: the answers of its calls, and what it holds now.
#[derive(Drop)]
pub struct Drawn {
    pub answers: Vec<Answer>,
    pub encoding: Encoding,
    pub path_tags: Vec<PathTag>,
    pub path_data: Vec<u32>,
    pub draw_tags: Vec<DrawTag>,
    pub draw_data: Vec<u32>,
    pub transforms: Vec<Transform>,
    pub styles: Vec<Style>,
}

const NO_TRANSFORM: Transform = Transform {
    matrix: [0.0; 4],
    translation: [0.0; 2],
};

const NO_STYLE: Style = Style {
    flags_and_miter_limit: 0,
    line_width: 0.0,
};

/// Makes the calls one after the other, over streams with so much room. A path that is open in the end is abandoned.
pub fn draw(heap: Global, calls: &[Call], room: Room) -> Result<Drawn, AllocError>
    ensures drawn { IfOk result (λ d. DrawnAs calls.now d) }
    ensures space { IfOk result (λ d. HasRoom room d) }
{
    let mut answers = vec![in heap; Answer::NotNow; calls.len()]?;
    let mut path_tags = vec![in heap; PathTag(0); room.path_tags]?;
    let mut path_data = vec![in heap; 0u32; room.path_data]?;
    let mut draw_tags = vec![in heap; DrawTag(0); room.draw_tags]?;
    let mut draw_data = vec![in heap; 0u32; room.draw_data]?;
    let mut transforms = vec![in heap; NO_TRANSFORM; room.transforms]?;
    let mut styles = vec![in heap; NO_STYLE; room.styles]?;
    let plan = replay(
        calls,
        answers.as_mut_slice(),
        path_tags.as_mut_slice(),
        path_data.as_mut_slice(),
        draw_tags.as_mut_slice(),
        draw_data.as_mut_slice(),
        transforms.as_mut_slice(),
        styles.as_mut_slice(),
    );
    let encoding = close(plan);
    Ok(Drawn {
        answers,
        encoding,
        path_tags,
        path_data,
        draw_tags,
        draw_data,
        transforms,
        styles,
    })
}

// The Encoding of a plan, whose path is given up if one is open.
fn close(plan: Plan) -> Encoding
    ensures { Left plan result }
{
    match plan {
        Plan::Closed(encoding) => encoding,
        Plan::Open(path) => path.abandon(),
    }
}

#[cfg(test)]
mod tests {
    use super::*;
    use std::test::Fail;
    use values::error::{EncodeError, Stream};

    const ROOM: Room = Room {
        path_tags: 4,
        path_data: 8,
        draw_tags: 1,
        draw_data: 1,
        transforms: 0,
        styles: 0,
    };

    // A colour is drawn, a second one finds no room, and a path that is left open is abandoned.
    #[test]
    fn a_colour(rt: HostRuntime) -> Result<(), Fail> {
        let calls = [
            Call::Color(0xff00_00ff),
            Call::Color(0xffff_ffff),
            Call::Path(true),
        ];
        let drawn = draw(rt.alloc(), &calls, ROOM)?;
        let full = EncodeError::FullStream(Stream::DrawTags);
        assert_eq!(rt;
            drawn.answers.as_slice(),
            [Answer::Done, Answer::Declined(full), Answer::Done].as_slice()
        );
        assert_eq!(rt; drawn.draw_tags.as_slice(), [DrawTag::COLOR].as_slice());
        assert_eq!(rt; drawn.draw_data.as_slice(), [0xff00_00ff].as_slice());
        assert_eq!(rt; drawn.encoding.stream_offsets().draw_tags, 1);
        Ok(())
    }
}
