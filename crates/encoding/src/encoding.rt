// The Encoding.
ghost use Rattle.std.specs.Prelude.{◌+◌, ◌≤◌};
ghost use Rattle.values.specs.Streams.{max_entries};
ghost use Rattle.values.specs.declared.error.Stream.TheVariants as Of;

mod draws;
mod flags;
mod settings;
mod shapes;
mod start;

/// How much of each stream a plan uses, what was counted, and what is forced next.
///
/// The entries are the caller's, who lends each call the streams that it works on. Those past a used length
/// are free: a call may leave anything there, and nothing that a call answers or writes depends on them.
#[derive(Drop)]
pub struct Encoding {
    // Each length by itself, as two of them stand beside what is forced.
    pub(crate) path_tags: usize,
    pub(crate) path_data: usize,
    draw_tags: usize,
    draw_data: usize,
    transforms: SettingState,
    styles: SettingState,
    pub(crate) n_paths: u32,
    pub(crate) n_path_segments: u32,
    n_clips: u32,
    n_open_clips: u32,
    ghost few_path_tags: { path_tags ≤ max_entries Of.PathTags },
    ghost few_path_data: { path_data ≤ max_entries Of.PathData },
    ghost few_draw_tags: { draw_tags ≤ max_entries Of.DrawTags },
    ghost few_draw_data: { draw_data ≤ max_entries Of.DrawData },
    ghost few_transforms: { transforms.used ≤ max_entries Of.Transforms },
    ghost few_styles: { styles.used ≤ max_entries Of.Styles },
    ghost tagged: { n_paths + n_path_segments ≤ path_tags },
    ghost drawn: { n_clips ≤ draw_tags },
    ghost begun: { n_open_clips ≤ n_clips },
}

// How many transforms or styles are used, and whether the next is written though it be the same as the last.
#[derive(Clone, Copy, Debug, PartialEq, Eq)]
pub(crate) struct SettingState {
    used: usize,
    forced: bool,
}

/// The used lengths of the six streams.
#[derive(Clone, Copy, Debug, PartialEq, Eq)]
pub struct StreamOffsets {
    pub path_tags: usize,
    pub path_data: usize,
    pub draw_tags: usize,
    pub draw_data: usize,
    pub transforms: usize,
    pub styles: usize,
}

/// The four counts, and the flags.
#[derive(Clone, Copy, Debug, PartialEq, Eq)]
pub struct Counts {
    pub n_paths: u32,
    pub n_path_segments: u32,
    pub n_clips: u32,
    pub n_open_clips: u32,
    // the crate's word of two bits
    pub flags: u32,
}
