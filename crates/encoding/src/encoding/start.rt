// An Encoding with nothing in it, and what is known of one.
ghost use Rattle.std.specs.Prelude.{◌≡◌};
ghost use Rattle.encoding.specs.Sheet.{Streams, sheet, blank, offsets_of, counts_of};
ghost use Rattle.encoding.specs.Rules.{forced};

use crate::encoding::flags::flags_of;
use crate::encoding::{Counts, Encoding, SettingState, StreamOffsets};

// None are used, and none is forced.
const UNUSED: SettingState = SettingState {
    used: 0,
    forced: false,
};

impl Encoding {
    /// An Encoding with nothing in it.
    pub fn new() -> Encoding
        ensures { (m : Streams) → sheet result m ≡ blank }
    {
        Encoding {
            path_tags: 0,
            path_data: 0,
            draw_tags: 0,
            draw_data: 0,
            transforms: UNUSED,
            styles: UNUSED,
            n_paths: 0,
            n_path_segments: 0,
            n_clips: 0,
            n_open_clips: 0,
        }
    }

    /// Empties the Encoding.
    pub fn reset(&mut self)
        ensures { (m : Streams) → sheet self.new m ≡ blank }
    {
        *self = Encoding::new();
    }

    /// Has the next transform and the next style written though they be the same as the last.
    pub fn force_next_transform_and_style(&mut self)
        ensures { (m : Streams) → sheet self.new m ≡ forced (sheet self.old m) }
    {
        self.transforms.forced = true;
        self.styles.forced = true;
    }

    /// How much of each stream is used.
    pub fn stream_offsets(&self) -> StreamOffsets
        ensures { (m : Streams) → result ≡ offsets_of (sheet self.now m) }
    {
        StreamOffsets {
            path_tags: self.path_tags,
            path_data: self.path_data,
            draw_tags: self.draw_tags,
            draw_data: self.draw_data,
            transforms: self.transforms.used,
            styles: self.styles.used,
        }
    }

    /// What was counted, and what is forced next.
    pub fn counts(&self) -> Counts
        ensures { (m : Streams) → result ≡ counts_of (sheet self.now m) }
    {
        Counts {
            n_paths: self.n_paths,
            n_path_segments: self.n_path_segments,
            n_clips: self.n_clips,
            n_open_clips: self.n_open_clips,
            flags: flags_of(self.transforms.forced, self.styles.forced),
        }
    }
}
