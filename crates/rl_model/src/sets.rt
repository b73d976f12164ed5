//! What a place may be used for, and which tests leave an item out.
ghost use Rattle.std.specs.Prelude.{⊤, [], ◌∷◌, codes};

use bitflags::{Flag, Flags};

/// What the bus may do with an item at a place: read it, write it, or both.
///
/// An item is added to an address map with such rights (`uvm_reg_map::add_reg` and `add_mem`, IEEE 1800.2-2017, 18.2).
/// What follows from a right that is missing is this project's own.
#[derive(Clone, Copy, PartialEq, Eq, Debug)]
pub struct Rights {
    bits: u8,
}

impl Rights {
    /// The bus may read the item at the place.
    pub const READ: Rights = Rights { bits: 1 };

    /// The bus may write the item at the place.
    pub const WRITE: Rights = Rights { bits: 2 };

    const FLAGS: &'static [Flag<Rights>] = &[
        Flag {
            name: "READ",
            value: Rights::READ,
        },
        Flag {
            name: "WRITE",
            value: Rights::WRITE,
        },
    ];
}

impl Flags for Rights {
    type Bits = u8;

    ghost exact = { ⊤ };

    ghost table = { (codes "READ", 1) ∷ (codes "WRITE", 2) ∷ [] };

    ghost set_of = { λ r. r.bits };

    fn flags<'a>() -> &'a [Flag<Rights>] {
        Rights::FLAGS
    }

    fn bits(&self) -> u8 {
        self.bits
    }

    fn from_bits_retain(bits: u8) -> Rights {
        Rights { bits }
    }
}

/// The register and memory sequences that leave an item out.
///
/// The names are those of the resources by which the sequences are told to leave an item out (IEEE 1800.2-2017,
/// Annex E). That there are these six, and the exact steps of the sequences, are this project's own. One that does not
/// concern the item changes nothing.
#[derive(Clone, Copy, PartialEq, Eq, Debug)]
pub struct Skip {
    bits: u8,
}

impl Skip {
    /// Every sequence of registers leaves the register out.
    pub const NO_REG_TESTS: Skip = Skip { bits: 1 };

    /// The hardware reset sequence leaves the register out.
    pub const NO_REG_HW_RESET_TEST: Skip = Skip { bits: 2 };

    /// The bit bash sequence leaves the register out.
    pub const NO_REG_BIT_BASH_TEST: Skip = Skip { bits: 4 };

    /// The access sequence, which compares bus and backdoor, leaves the register out.
    pub const NO_REG_ACCESS_TEST: Skip = Skip { bits: 8 };

    /// The shared access sequence, over the places of one register, leaves the register out.
    pub const NO_REG_SHARED_ACCESS_TEST: Skip = Skip { bits: 16 };

    /// The memory walk leaves the memory out.
    pub const NO_MEM_WALK_TEST: Skip = Skip { bits: 32 };

    const FLAGS: &'static [Flag<Skip>] = &[
        Flag {
            name: "NO_REG_TESTS",
            value: Skip::NO_REG_TESTS,
        },
        Flag {
            name: "NO_REG_HW_RESET_TEST",
            value: Skip::NO_REG_HW_RESET_TEST,
        },
        Flag {
            name: "NO_REG_BIT_BASH_TEST",
            value: Skip::NO_REG_BIT_BASH_TEST,
        },
        Flag {
            name: "NO_REG_ACCESS_TEST",
            value: Skip::NO_REG_ACCESS_TEST,
        },
        Flag {
            name: "NO_REG_SHARED_ACCESS_TEST",
            value: Skip::NO_REG_SHARED_ACCESS_TEST,
        },
        Flag {
            name: "NO_MEM_WALK_TEST",
            value: Skip::NO_MEM_WALK_TEST,
        },
    ];
}

impl Flags for Skip {
    type Bits = u8;

    ghost exact = { ⊤ };

    ghost table = { (codes "NO_REG_TESTS", 1) ∷ (codes "NO_REG_HW_RESET_TEST", 2) ∷ (codes "NO_REG_BIT_BASH_TEST", 4)
        ∷ (codes "NO_REG_ACCESS_TEST", 8) ∷ (codes "NO_REG_SHARED_ACCESS_TEST", 16) ∷ (codes "NO_MEM_WALK_TEST", 32)
        ∷ [] };

    ghost set_of = { λ r. r.bits };

    fn flags<'a>() -> &'a [Flag<Skip>] {
        Skip::FLAGS
    }

    fn bits(&self) -> u8 {
        self.bits
    }

    fn from_bits_retain(bits: u8) -> Skip {
        Skip { bits }
    }
}
