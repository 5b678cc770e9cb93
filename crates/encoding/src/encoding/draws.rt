// Draw and clip commands.
ghost use Rattle.std.specs.Prelude.{◌≤◌, length, OnOk};
ghost use Rattle.encoding.specs.Promises.{OnDraws, OnTags};
ghost use Rattle.encoding.specs.Rules.{draw_rule, color_rule, blur_rule, begin_clip, end_clip};
ghost use Rattle.encoding.specs.Inner.{OneMore};

use crate::encoding::Encoding;
use crate::streams::{append, fits, held, room};
use geometry::numbers::all_finite;
use monoid::draw::DrawTag;
use monoid::path::PathTag;
use std::num::f32_to_bits_with_nan;
use values::error::{EncodeError, Stream};

// `mix` and `compose` are bytes of which the rules take any: an enum would ask more of callers. The sizes of a blurred
// rectangle are the crate's.
impl Encoding {
    // Encodes a draw tag and its words, if the numbers that they were made from are finite.
    fn encode_draw(
        &mut self,
        draw_tags: &mut [DrawTag],
        draw_data: &mut [u32],
        is_finite: bool,
        tag: DrawTag,
        words: &[u32],
    ) -> Result<(), EncodeError>
        requires { length words.now ≤ 8 }
        ensures answered { OnDraws (draw_rule is_finite tag words.now (λ d. d)) self.old draw_tags.old draw_data.old result self.new draw_tags.new draw_data.new }
        ensures grows { OnOk result (OneMore self.old self.new) }
    {
        held(
            room(Stream::DrawTags, self.draw_tags, draw_tags),
            room(Stream::DrawData, self.draw_data, draw_data),
        )?;
        if !is_finite {
            return Err(EncodeError::NotFinite);
        }
        fits(
            room(Stream::DrawTags, self.draw_tags + 1, draw_tags),
            room(Stream::DrawData, self.draw_data + words.len(), draw_data),
        )?;
        self.draw_tags = append(draw_tags, self.draw_tags, &[tag]);
        self.draw_data = append(draw_data, self.draw_data, words);
        Ok(())
    }

    /// Encodes a colour.
    pub fn encode_color(
        &mut self,
        draw_tags: &mut [DrawTag],
        draw_data: &mut [u32],
        color: u32,
    ) -> Result<(), EncodeError>
        ensures { OnDraws (color_rule color) self.old draw_tags.old draw_data.old result self.new draw_tags.new draw_data.new }
    {
        self.encode_draw(draw_tags, draw_data, true, DrawTag::COLOR, &[color])
    }

    /// Encodes a rounded rectangle blurred by a Gaussian of the deviation `std_dev`.
    pub fn encode_blurred_rounded_rect(
        &mut self,
        draw_tags: &mut [DrawTag],
        draw_data: &mut [u32],
        color: u32,
        width: f32,
        height: f32,
        radius: f32,
        std_dev: f32,
    ) -> Result<(), EncodeError>
        ensures { OnDraws (blur_rule color width height radius std_dev) self.old draw_tags.old draw_data.old result self.new draw_tags.new draw_data.new }
    {
        let is_finite = all_finite(&[width, height, radius, std_dev]);
        let words = [
            color,
            f32_to_bits_with_nan(width),
            f32_to_bits_with_nan(height),
            f32_to_bits_with_nan(radius),
            f32_to_bits_with_nan(std_dev),
        ];
        self.encode_draw(draw_tags, draw_data, is_finite, DrawTag::BLUR_RECT, &words)
    }

    /// Begins a clip that is blended as `mix` and `compose` say.
    pub fn encode_begin_clip(
        &mut self,
        draw_tags: &mut [DrawTag],
        draw_data: &mut [u32],
        mix: u8,
        compose: u8,
        alpha: f32,
    ) -> Result<(), EncodeError>
        ensures { OnDraws (begin_clip mix compose alpha) self.old draw_tags.old draw_data.old result self.new draw_tags.new draw_data.new }
    {
        let is_finite = all_finite(&[alpha]);
        let blend_mode = mix as u32 * 256 + compose as u32;
        let words = [blend_mode, f32_to_bits_with_nan(alpha)];
        self.encode_draw(draw_tags, draw_data, is_finite, DrawTag::BEGIN_CLIP, &words)?;
        self.n_clips += 1;
        self.n_open_clips += 1;
        Ok(())
    }

    /// Ends the clip that was begun last of those still open.
    pub fn encode_end_clip(
        &mut self,
        path_tags: &mut [PathTag],
        draw_tags: &mut [DrawTag],
    ) -> Result<(), EncodeError>
        ensures { OnTags end_clip self.old path_tags.old draw_tags.old result self.new path_tags.new draw_tags.new }
    {
        held(
            room(Stream::PathTags, self.path_tags, path_tags),
            room(Stream::DrawTags, self.draw_tags, draw_tags),
        )?;
        if self.n_open_clips == 0 {
            return Err(EncodeError::NoOpenClip);
        }
        fits(
            room(Stream::PathTags, self.path_tags + 1, path_tags),
            room(Stream::DrawTags, self.draw_tags + 1, draw_tags),
        )?;
        self.path_tags = append(path_tags, self.path_tags, &[PathTag::PATH]);
        self.draw_tags = append(draw_tags, self.draw_tags, &[DrawTag::END_CLIP]);
        self.n_paths += 1;
        self.n_clips += 1;
        self.n_open_clips -= 1;
        Ok(())
    }
}
