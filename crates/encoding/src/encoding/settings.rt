// Transforms and styles.
ghost use Rattle.std.specs.Prelude.{◌≡◌, ℕ, ◌≤◌, length};
ghost use Rattle.values.specs.declared.error.Stream.TheVariants as Of;
ghost use Rattle.values.specs.Streams.{max_entries};
ghost use Rattle.values.specs.declared.error.EncodeError.TheVariants as Error;
ghost use Rattle.values.specs.Errors.{unless, told};
ghost use Rattle.values.specs.Settings.{MiterHalf, finite_transform};
ghost use Rattle.encoding.specs.Promises.{OnStyles, OnTransforms};
ghost use Rattle.encoding.specs.Rules.{transform_rule, style_rule, fill_rule, stroke_rule};
ghost use Rattle.encoding.specs.Inner.{SetAs, place};

use crate::encoding::{Encoding, SettingState};
use crate::streams::{append, fits, held, is_new, room};
use monoid::path::PathTag;
use values::error::{EncodeError, Stream};
use values::setting::Setting;
use values::style::{Fill, Stroke, Style};
use values::transform::Transform;

// Writes a transform or a style that was made, with its tag, unless it is the last one, and says whether it did. The
// stream and the tag are handed in by the two calls: a trait with them would name them twice.
fn encode_setting<T: Setting>(
    path_tags: &mut [PathTag],
    tags_used: &mut usize,
    entries: &mut [T],
    settings: &mut SettingState,
    stream: Stream,
    tag: PathTag,
    made: Result<T, EncodeError>,
) -> Result<bool, EncodeError>
    requires few { (tags_used.old ≤ max_entries Of.PathTags) × (settings.old.used ≤ max_entries stream) }
    ensures set { SetAs T.Setting.same stream tag (length path_tags.old) (length entries.old) made (place tags_used.old path_tags.old settings.old entries.old) result (place tags_used.new path_tags.new settings.new entries.new) }
    ensures few { (tags_used.new ≤ max_entries Of.PathTags) × (settings.new.used ≤ max_entries stream) }
    ensures kept { tags_used.old ≤ tags_used.new }
{
    held(
        room(Stream::PathTags, *tags_used, path_tags),
        room(stream, settings.used, entries),
    )?;
    let value = made?;
    if !is_new(settings.forced, entries, settings.used, value) {
        return Ok(false);
    }
    fits(
        room(Stream::PathTags, *tags_used + 1, path_tags),
        room(stream, settings.used + 1, entries),
    )?;
    *tags_used = append(path_tags, *tags_used, &[tag]);
    settings.used = append(entries, settings.used, &[value]);
    settings.forced = false;
    Ok(true)
}

// The transform, unless one of its numbers is not finite.
fn finite(transform: Transform) -> Result<Transform, EncodeError>
    ensures { result ≡ told (unless (finite_transform transform) Error.NotFinite) transform }
{
    if !transform.is_finite() {
        return Err(EncodeError::NotFinite);
    }
    Ok(transform)
}

impl Encoding {
    /// Encodes a transform, unless it is the last one, and says whether it did.
    pub fn encode_transform(
        &mut self,
        path_tags: &mut [PathTag],
        transforms: &mut [Transform],
        transform: Transform,
    ) -> Result<bool, EncodeError>
        ensures { OnTransforms (transform_rule transform) self.old path_tags.old transforms.old result self.new path_tags.new transforms.new }
    {
        encode_setting(
            path_tags,
            &mut self.path_tags,
            transforms,
            &mut self.transforms,
            Stream::Transforms,
            PathTag::TRANSFORM,
            finite(transform),
        )
    }

    // Encodes a style, unless it is the last one or was declined as it was made.
    fn encode_style(
        &mut self,
        path_tags: &mut [PathTag],
        styles: &mut [Style],
        made: Result<Style, EncodeError>,
    ) -> Result<(), EncodeError>
        ensures { OnStyles (style_rule tt made) self.old path_tags.old styles.old result self.new path_tags.new styles.new }
    {
        encode_setting(
            path_tags,
            &mut self.path_tags,
            styles,
            &mut self.styles,
            Stream::Styles,
            PathTag::STYLE,
            made,
        )?;
        Ok(())
    }

    /// Encodes the style of a fill, unless it is the last one.
    pub fn encode_fill_style(
        &mut self,
        path_tags: &mut [PathTag],
        styles: &mut [Style],
        fill: Fill,
    ) -> Result<(), EncodeError>
        ensures { OnStyles (fill_rule fill) self.old path_tags.old styles.old result self.new path_tags.new styles.new }
    {
        self.encode_style(path_tags, styles, Ok(Style::from_fill(fill)))
    }

    /// Encodes the style of a stroke, unless it is the last one. The answer is true.
    pub fn encode_stroke_style(
        &mut self,
        path_tags: &mut [PathTag],
        styles: &mut [Style],
        stroke: Stroke,
    ) -> Result<bool, EncodeError>
        ensures { (h : ℕ) × MiterHalf stroke h × OnStyles (stroke_rule stroke h) self.old path_tags.old styles.old result self.new path_tags.new styles.new }
    {
        self.encode_style(path_tags, styles, Style::from_stroke(stroke))?;
        Ok(true)
    }
}
