// Calls made one after the other.
ghost use Rattle.replay.specs.declared.calls.Plan.TheVariants as Plans;
ghost use Rattle.encoding.specs.Sheet.{sheet};
ghost use Rattle.replay.specs.Runs.{RunsShow};
ghost use Rattle.replay.specs.Meant.{meant, six, CalledClosed, Called, Replayed};
ghost use Rattle.replay.specs.Lent.{held, SameStreams};

use crate::calls::{Answer, Call, Plan};
use encoding::encoding::Encoding;
use encoding::path_encoder::PathEncoder;
use monoid::draw::DrawTag;
use monoid::path::PathTag;
use values::style::Style;
use values::transform::Transform;

// The six streams, as the calls are lent them.
#[derive(Drop)]
struct Streams<'a> {
    path_tags: &'a mut [PathTag],
    path_data: &'a mut [u32],
    draw_tags: &'a mut [DrawTag],
    draw_data: &'a mut [u32],
    transforms: &'a mut [Transform],
    styles: &'a mut [Style],
}

// Makes a call with no path open that opens none. Calls are data, so each is made in its arm of a match.
fn answer_closed(encoding: &mut Encoding, call: Call, streams: &mut Streams) -> Answer
    ensures called { CalledClosed (meant call.entry) (sheet encoding.old (held streams.old)) (held streams.old) result (sheet encoding.new (held streams.new)) }
    ensures same { SameStreams streams.old streams.new }
{
    match call {
        Call::Reset => {
            encoding.reset();
            Answer::Done
        }
        Call::ForceNext => {
            encoding.force_next_transform_and_style();
            Answer::Done
        }
        Call::Transform(transform) => encoding
            .encode_transform(streams.path_tags, streams.transforms, transform)
            .into(),
        Call::FillStyle(fill) => encoding
            .encode_fill_style(streams.path_tags, streams.styles, fill)
            .into(),
        Call::StrokeStyle(stroke) => encoding
            .encode_stroke_style(streams.path_tags, streams.styles, stroke)
            .into(),
        Call::Color(color) => encoding
            .encode_color(streams.draw_tags, streams.draw_data, color)
            .into(),
        Call::BlurredRoundedRect {
            color,
            width,
            height,
            radius,
            std_dev,
        } => encoding
            .encode_blurred_rounded_rect(
                streams.draw_tags,
                streams.draw_data,
                color,
                width,
                height,
                radius,
                std_dev,
            )
            .into(),
        Call::BeginClip {
            mix,
            compose,
            alpha,
        } => encoding
            .encode_begin_clip(streams.draw_tags, streams.draw_data, mix, compose, alpha)
            .into(),
        Call::EndClip => encoding
            .encode_end_clip(streams.path_tags, streams.draw_tags)
            .into(),
        Call::EmptyShape => encoding
            .encode_empty_shape(streams.path_tags, streams.path_data)
            .into(),
        Call::PathElements { elements, is_fill } => encoding
            .encode_path_elements(streams.path_tags, streams.path_data, elements, is_fill)
            .into(),
        _ => Answer::NotNow,
    }
}

// Makes a call with no path open.
fn call_closed(mut encoding: Encoding, call: Call, streams: &mut Streams) -> (Plan, Answer)
    ensures called { Called (meant call.entry) (Plans.Closed encoding) (held streams.old) result.1 result.0 (held streams.new) }
    ensures same { SameStreams streams.old streams.new }
{
    if let Call::Path(is_fill) = call {
        return (Plan::Open(encoding.encode_path(is_fill)), Answer::Done);
    }
    let answer = answer_closed(&mut encoding, call, streams);
    (Plan::Closed(encoding), answer)
}

// Makes a call with a path open, likewise.
fn call_open(mut path: PathEncoder, call: Call, streams: &mut Streams) -> (Plan, Answer)
    ensures called { Called (meant call.entry) (Plans.Open path) (held streams.old) result.1 result.0 (held streams.new) }
    ensures same { SameStreams streams.old streams.new }
{
    match call {
        Call::Element(element) => {
            let answer = path
                .encode_element(streams.path_tags, streams.path_data, element)
                .into();
            (Plan::Open(path), answer)
        }
        Call::Finish(insert_path_marker) => {
            match path.finish(streams.path_tags, streams.path_data, insert_path_marker) {
                Ok((encoding, count)) => (Plan::Closed(encoding), Answer::Counted(count)),
                Err((error, path)) => (Plan::Open(path), Answer::Declined(error)),
            }
        }
        Call::Abandon => (Plan::Closed(path.abandon()), Answer::Done),
        _ => (Plan::Open(path), Answer::NotNow),
    }
}

// Makes one call, and says what it answered.
fn make(plan: Plan, call: Call, streams: &mut Streams) -> (Plan, Answer)
    ensures called { Called (meant call.entry) plan (held streams.old) result.1 result.0 (held streams.new) }
    ensures same { SameStreams streams.old streams.new }
{
    match plan {
        Plan::Closed(encoding) => call_closed(encoding, call, streams),
        Plan::Open(path) => call_open(path, call, streams),
    }
}

// The streams come one by one: a proof knows nothing more of vectors whose slices went into a struct as it was made.
/// Makes the calls one after the other from a new Encoding, as many as there are places for their answers.
pub fn replay(
    calls: &[Call],
    answers: &mut [Answer],
    path_tags: &mut [PathTag],
    path_data: &mut [u32],
    draw_tags: &mut [DrawTag],
    draw_data: &mut [u32],
    transforms: &mut [Transform],
    styles: &mut [Style],
) -> Plan
    ensures replayed { Replayed calls.now answers.old answers.new result (six path_tags.new path_data.new draw_tags.new draw_data.new transforms.new styles.new) }
    ensures always { RunsShow }
{
    let mut streams = Streams {
        path_tags,
        path_data,
        draw_tags,
        draw_data,
        transforms,
        styles,
    };
    let mut plan = Plan::Closed(Encoding::new());
    let n = calls.len().min(answers.len());
    // A proof knows no element of a slice after `iter_mut`, so the answers are written by their places. They stand in
    // the caller's memory, as there is no heap here.
    for (i, call) in calls[..n].iter().enumerate() {
        (plan, answers[i]) = make(plan, *call, &mut streams);
    }
    plan
}
