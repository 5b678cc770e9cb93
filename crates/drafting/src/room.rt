// The space that a plan's streams are lent with.

/// How many entries each stream is lent with.
pub use encoding::encoding::StreamOffsets as Room;
