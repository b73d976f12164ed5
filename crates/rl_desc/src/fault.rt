//! Why a description is refused, and where.
ghost use Rattle.std.specs.Prelude.{◌≡◌};
ghost use Rattle.rl_desc.specs.declared.fault.DescFault.TheVariants.{Memory};
ghost use Rattle.rl_desc.specs.Spots.{spot_in};

use crate::key::Key;
use rl_map::{MapCause, MapFault};
use rl_model::{Array, ModelCause, ModelFault, Spot};
use std::alloc::{AllocError, AllocFailed};
use thiserror::Error;

/// The rows of an array, or the fields of the register at a spot.
#[derive(Clone, Copy)]
pub(crate) enum Rows {
    Array(Array),
    Fields(Spot),
}

impl Rows {
    /// Where row `i` is.
    pub(crate) fn spot(self, i: u32) -> Spot
        ensures { result ≡ spot_in self i }
    {
        match self {
            Rows::Array(array) => Spot {
                array,
                row: i,
                field: None,
            },
            Rows::Fields(reg) => Spot {
                field: Some(i),
                ..reg
            },
        }
    }
}

/// Why a text is no description by its form alone.
///
/// In a row `UnknownKey` comes first, and then each key in the order of the columns of its array.
#[derive(Clone, Copy, Debug, PartialEq, Eq)]
pub enum DescCause {
    /// The bytes are no UTF-8, or no TOML.
    Text,
    /// A table has a key that its array doesn't know.
    UnknownKey,
    /// A required key is not there.
    MissingKey { key: Key },
    /// The value is of another type than the key asks for.
    WrongType { key: Key },
    /// A number that doesn't fit, or a text that is none of the words that the key takes.
    BadValue { key: Key },
}

/// Why a description is refused: the first condition that fails, or running out of memory, which may come at
/// any point.
///
/// The conditions are tested in the order of these variants: the form of the whole text, then blocks,
/// files, registers and memories, then maps and places, then flaws. Rows are counted from 0. `spot` is
/// None for the text as a whole and for its top level. The message of a variant is its name.
#[derive(Clone, Copy, Debug, PartialEq, Eq, Error)]
pub enum DescFault {
    /// The text, its keys or their types.
    #[error("Bad")]
    Bad {
        cause: DescCause,
        spot: Option<Spot>,
    },
    /// A block, file, register, field or memory that no chip can have.
    #[error("Model")]
    Model {
        cause: ModelCause,
        spot: Spot,
    },
    /// A map or a place that no layout can have.
    #[error("Map")]
    Map {
        cause: MapCause,
        spot: Spot,
    },
    /// More than 256 flaws.
    #[error("TooManyFlaws")]
    TooManyFlaws {
        row: u32,
    },
    /// A flaw that names what isn't there, or a value that it can't have.
    #[error("Flaw")]
    Flaw {
        row: u32,
    },
    /// Want of memory.
    #[error("Memory")]
    Memory,
}

impl From<AllocError> for DescFault {
    ghost from_gives = { λ _ e. e ≡ Memory };

    fn from(_e: AllocError) -> DescFault {
        DescFault::Memory
    }
}

impl<T: Drop> From<AllocFailed<T>> for DescFault {
    ghost from_gives = { λ _ e. e ≡ Memory };

    fn from(_e: AllocFailed<T>) -> DescFault {
        DescFault::Memory
    }
}

impl From<ModelFault> for DescFault {
    ghost use Rattle.rl_desc.specs.Faults.{of_model};

    ghost from_gives = { λ fault e. e ≡ of_model fault };

    fn from(fault: ModelFault) -> DescFault {
        match fault {
            ModelFault::Bad { cause, spot } => DescFault::Model { cause, spot },
            ModelFault::Memory => DescFault::Memory,
        }
    }
}

impl From<MapFault> for DescFault {
    ghost use Rattle.rl_desc.specs.Faults.{of_map};

    ghost from_gives = { λ fault e. e ≡ of_map fault };

    fn from(fault: MapFault) -> DescFault {
        match fault {
            MapFault::Bad { cause, spot } => DescFault::Map { cause, spot },
            MapFault::Memory => DescFault::Memory,
        }
    }
}
