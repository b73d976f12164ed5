//! The limits of a layout. They are this project's own.

/// Address maps of a layout.
pub(crate) const MOST_MAPS: usize = 64;

/// Maps of a path, from an item's own map up to the root.
pub(crate) const MOST_LEVELS: usize = 4;

/// Places of a layout.
pub(crate) const MOST_PLACES: usize = 4096;

/// Words of all locations of all places together.
pub(crate) const MOST_WORDS: u64 = 1_048_576;
