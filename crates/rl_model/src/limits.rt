//! The limits of a chip. They are this project's own.

/// Blocks of a chip, and register files too.
pub(crate) const MOST_SCOPES: u32 = 256;

/// Registers of a chip.
pub(crate) const MOST_REGS: u32 = 1024;

/// Memories of a chip.
pub(crate) const MOST_MEMS: u32 = 64;

/// Locations of one memory, and of all memories together.
pub(crate) const MOST_LOCATIONS: u64 = 65536;

/// Reset kinds, with HARD and SOFT.
pub(crate) const MOST_KINDS: usize = 16;

/// Names of a path.
pub(crate) const MOST_NAMES: usize = 8;

/// Bytes of a name.
pub(crate) const LONGEST_NAME: usize = 32;

/// Bytes of a register or a location.
pub(crate) const MOST_BYTES: u64 = 8;

/// Bits of a field.
pub(crate) const MOST_BITS: u64 = 64;
