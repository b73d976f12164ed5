//! Why a chip cannot be built, and where.
ghost use Rattle.std.specs.Prelude.{◌≡◌, Some, None};
ghost use Rattle.rl_model.specs.declared.fault.ModelFault.TheVariants.{Memory};

use std::alloc::AllocError;

/// The arrays of a description. Those past `Mem` are of the layers above a chip.
#[derive(Clone, Copy, Debug, PartialEq, Eq)]
pub enum Array {
    /// Blocks.
    Block,
    /// Register files.
    File,
    /// Registers.
    Reg,
    /// Memories.
    Mem,
    /// Address maps.
    Map,
    /// Places of items in maps.
    Place,
    /// Flaws of a device.
    Flaw,
}

/// Where a description fails: a row of an array, or a field of a register's row.
#[derive(Clone, Copy, Debug, PartialEq, Eq)]
pub struct Spot {
    /// The array that the row is in.
    pub array: Array,
    /// The row, counted from 0 in description order.
    pub row: u32,
    /// The field of the register, counted from 0 in description order; none where the row itself fails.
    pub field: Option<u32>,
}

impl Spot {
    pub(crate) fn refuses(self, cause: ModelCause) -> ModelFault
        ensures { result ≡ ModelFault.Bad cause self }
    {
        ModelFault::Bad { cause, spot: self }
    }
}

/// The conditions of a chip. They are this project's own.
#[derive(Clone, Copy, Debug, PartialEq, Eq)]
pub enum ModelCause {
    /// More than 256 blocks or files, 1,024 registers, 64 memories, 65,536 locations of all memories, or 16
    /// reset kinds.
    TooMany,
    /// `of` is no earlier block or file that may hold the row.
    NoSuchParent,
    /// Not a letter or `_` and then letters, digits and `_`, or more than 32 bytes.
    BadName,
    /// An earlier row has the path, an earlier field the name, or the field has the kind twice.
    DuplicateName,
    /// The path would have more than 8 names.
    TooDeep,
    /// Not 1 to 8 bytes, or not 1 to 64 bits.
    BadWidth,
    /// A memory of no location, or of more than 65,536.
    BadSize,
    /// A bit of the field is past the register.
    FieldOutside,
    /// An earlier field of the register has one of the bits.
    FieldsOverlap,
    /// A reset value has a bit past the field.
    ResetTooWide,
}

/// Why a chip is not built: the first condition that fails, with its place, or running out of memory.
#[derive(Clone, Copy, Debug, PartialEq, Eq)]
pub enum ModelFault {
    /// The first condition that fails, and where.
    Bad { cause: ModelCause, spot: Spot },
    /// The allocator had no memory left.
    Memory,
}

/// An allocation that failed, whether or not it hands its value back.
impl<E: Into<AllocError> + Drop> From<E> for ModelFault {
    ghost from_gives = { λ _ e. e ≡ Memory };

    fn from(_e: E) -> ModelFault {
        ModelFault::Memory
    }
}
