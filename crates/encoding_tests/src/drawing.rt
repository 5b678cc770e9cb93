// Draw and clip commands, by the space that they are lent.
use encoding::encoding::Encoding;
use encoding::error::EncodeError::{
    self, FullStream as Full, NoOpenClip, NotFinite, ShortStream as Short,
};
use encoding::error::Stream::{DrawData, DrawTags, PathTags};
use monoid::draw::DrawTag;
use monoid::path::PathTag;

#[derive(Clone, Copy)]
enum Command {
    Color,
    Blur(f32),
    BeginClip(f32),
}

// The command, first or after two colours, with so many draw tags and words of draw data.
fn drawn(first: bool, command: Command, tags: usize, words: usize) -> Result<(), EncodeError> {
    let mut draw_tags = [DrawTag::NOP; 4];
    let mut draw_data = [0u32; 8];
    let mut encoding = Encoding::new();
    if !first {
        two_colors(&mut encoding, &mut draw_tags, &mut draw_data);
    }
    last_command(
        &mut encoding,
        &mut draw_tags[0..tags.min(4)],
        &mut draw_data[0..words.min(8)],
        command,
    )
}

fn two_colors(encoding: &mut Encoding, draw_tags: &mut [DrawTag], draw_data: &mut [u32]) {
    let _ = encoding.encode_color(draw_tags, draw_data, 7);
    let _ = encoding.encode_color(draw_tags, draw_data, 8);
}

// The table's commands are data, so a match makes each call.
fn last_command(
    encoding: &mut Encoding,
    tags: &mut [DrawTag],
    words: &mut [u32],
    command: Command,
) -> Result<(), EncodeError> {
    match command {
        Command::Color => encoding.encode_color(tags, words, 7),
        Command::Blur(x) => {
            encoding.encode_blurred_rounded_rect(tags, words, 7, 1.0, 1.0, x, 1.0)
        }
        Command::BeginClip(x) => encoding.encode_begin_clip(tags, words, 0, 3, x),
    }
}

const INFINITE: f32 = 1.0 / 0.0;

// First or not, the command, draw tags, words, and the answer.
const COMMANDS: [(bool, Command, usize, usize, Result<(), EncodeError>); 21] = [
    (true, Command::Color, 1, 1, Ok(())),
    (true, Command::Color, 0, 1, Err(Full(DrawTags))),
    (true, Command::Color, 1, 0, Err(Full(DrawData))),
    (true, Command::Color, 0, 0, Err(Full(DrawTags))),
    (true, Command::Blur(1.0), 1, 5, Ok(())),
    (true, Command::Blur(1.0), 0, 5, Err(Full(DrawTags))),
    (true, Command::Blur(1.0), 1, 4, Err(Full(DrawData))),
    (true, Command::Blur(1.0), 0, 4, Err(Full(DrawTags))),
    (true, Command::Blur(INFINITE), 0, 0, Err(NotFinite)),
    (true, Command::BeginClip(1.0), 1, 2, Ok(())),
    (true, Command::BeginClip(1.0), 0, 2, Err(Full(DrawTags))),
    (true, Command::BeginClip(1.0), 1, 1, Err(Full(DrawData))),
    (true, Command::BeginClip(1.0), 0, 1, Err(Full(DrawTags))),
    (true, Command::BeginClip(INFINITE), 0, 0, Err(NotFinite)),
    (false, Command::Color, 3, 3, Ok(())),
    (false, Command::Color, 2, 2, Err(Full(DrawTags))),
    (false, Command::Color, 1, 2, Err(Short(DrawTags))),
    (false, Command::Color, 2, 1, Err(Short(DrawData))),
    (false, Command::Blur(INFINITE), 1, 1, Err(Short(DrawTags))),
    (
        false,
        Command::BeginClip(INFINITE),
        2,
        1,
        Err(Short(DrawData)),
    ),
    (false, Command::BeginClip(INFINITE), 2, 2, Err(NotFinite)),
];

#[test]
fn commands(rt: HostRuntime) {
    for (first, command, tags, words, expected) in COMMANDS {
        assert_eq!(rt; drawn(first, command, tags, words), expected);
    }
}

// How many clips were begun before, and whether one of them has ended.
#[derive(Clone, Copy)]
enum Clips {
    None,
    Open,
    Ended,
}

// The table's clips are data, so a match makes the calls.
fn clipped(
    clips: Clips,
    path_tags: &mut [PathTag],
    draw_tags: &mut [DrawTag],
    draw_data: &mut [u32],
) -> Encoding {
    let mut encoding = Encoding::new();
    match clips {
        Clips::None => encoding,
        Clips::Open => {
            let _ = encoding.encode_begin_clip(draw_tags, draw_data, 0, 3, 1.0);
            encoding
        }
        Clips::Ended => {
            let _ = encoding.encode_begin_clip(draw_tags, draw_data, 0, 3, 1.0);
            let _ = encoding.encode_end_clip(path_tags, draw_tags);
            encoding
        }
    }
}

// An end of a clip, with so many path tags and draw tags.
fn ended(clips: Clips, marks: usize, tags: usize) -> Result<(), EncodeError> {
    let mut path_tags = [PathTag(0); 4];
    let mut draw_tags = [DrawTag::NOP; 4];
    let mut draw_data = [0u32; 8];
    let mut encoding = clipped(clips, &mut path_tags, &mut draw_tags, &mut draw_data);
    encoding.encode_end_clip(
        &mut path_tags[0..marks.min(4)],
        &mut draw_tags[0..tags.min(4)],
    )
}

// The clips before, path tags, draw tags, and the answer.
const ENDS: [(Clips, usize, usize, Result<(), EncodeError>); 10] = [
    (Clips::Open, 1, 2, Ok(())),
    (Clips::Open, 0, 2, Err(Full(PathTags))),
    (Clips::Open, 1, 1, Err(Full(DrawTags))),
    (Clips::Open, 0, 1, Err(Full(PathTags))),
    (Clips::Open, 0, 0, Err(Short(DrawTags))),
    (Clips::None, 0, 0, Err(NoOpenClip)),
    (Clips::Ended, 1, 2, Err(NoOpenClip)),
    (Clips::Ended, 0, 0, Err(Short(PathTags))),
    (Clips::Ended, 1, 1, Err(Short(DrawTags))),
    (Clips::Ended, 0, 2, Err(Short(PathTags))),
];

#[test]
fn ends(rt: HostRuntime) {
    for (clips, marks, tags, expected) in ENDS {
        assert_eq!(rt; ended(clips, marks, tags), expected);
    }
}
