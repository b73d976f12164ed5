//! Why a layout cannot be built, and where.
ghost use Rattle.std.specs.Prelude.{◌≡◌, Some, None};
ghost use Rattle.rl_map.specs.declared.fault.MapFault.TheVariants.{Memory};

use rl_model::{Array, Spot};
use std::alloc::AllocError;

/// The conditions of maps and places. They are this project's own.
#[derive(Clone, Copy, Debug, PartialEq, Eq)]
pub enum MapCause {
    /// More than 64 maps, 4,096 places, or 1,048,576 words of all places.
    TooMany,
    /// A map's name isn't a letter or `_` and then letters, digits and `_`, or has more than 32 bytes.
    BadName,
    /// An earlier map has the name.
    DuplicateName,
    /// A map's parent is no earlier map, or a place's map isn't there.
    NoSuchMap,
    /// More than four maps from the map up to its root.
    TooDeep,
    /// A map's width isn't 1, 2, 4 or 8 bytes, or a root is wider than its adapter's bus may be.
    BadBytes,
    /// No kind of adapter at hand has the name that a root gives.
    NoSuchAdapter,
    /// No register or memory has the path that a place gives.
    NoSuchItem,
    /// An earlier place has the same map and the same item.
    PlacedTwice,
    /// A memory is placed where a map on the path up to the root is of a FIFO kind.
    MemInFifo,
    /// A byte of the item would be above the last address that the adapter takes.
    AddressOverflow,
    /// A word is at no multiple of the bus width under an adapter that takes aligned addresses alone, or
    /// a byte-addressed map has it at no multiple of its width where its parent counts words.
    Unaligned,
    /// A word is at an address of a word of an earlier place of the port, and the two places have a right
    /// in common or one of them has a FIFO kind on its path.
    SharedAddress {
        /// The least such address.
        address: u64,
        /// The number of the first earlier place that has a word there and clashes.
        other: u32,
    },
}

/// Why a layout is not built: the first condition that fails with its row, or running out of memory.
#[derive(Clone, Copy, Debug, PartialEq, Eq)]
pub enum MapFault {
    /// The first condition that fails, and where.
    Bad { cause: MapCause, spot: Spot },
    /// The allocator had no memory left.
    Memory,
}

/// An allocation that failed, whether or not it hands its value back.
impl<E: Into<AllocError> + Drop> From<E> for MapFault {
    ghost from_gives = { λ _ e. e ≡ Memory };

    fn from(_e: E) -> MapFault {
        MapFault::Memory
    }
}

/// A row of an array.
pub(crate) fn row_at(array: Array, row: u32) -> Spot
    ensures { result ≡ record { array = array; row = row; field = None } }
{
    Spot {
        array,
        row,
        field: None,
    }
}

/// A condition that fails at a row.
pub(crate) fn refusal(spot: Spot, cause: MapCause) -> MapFault
    ensures { result ≡ MapFault.Bad cause spot }
{
    MapFault::Bad { cause, spot }
}
