// The rows of the tables that say what a device has.

use rl_policy::Policy;
use rl_policy::word::{put, take, window};

/// A register, or a location of a memory, by their numbers. `index` counts the locations of the memory.
#[derive(Clone, Copy, Debug, PartialEq, Eq)]
pub enum Cell {
    /// A register.
    Reg { reg: u32 },
    /// A location of a memory.
    Loc { mem: u32, index: u32 },
}

/// A field of a register: `width` bits from `lsb` on.
#[derive(Clone, Copy, Debug)]
pub struct FieldRow {
    /// The register that it belongs to.
    pub reg: u32,
    /// Its lowest bit in the register.
    pub lsb: u32,
    /// How many bits it has.
    pub width: u32,
    /// Its access policy in the description.
    pub policy: Policy,
}

/// The value that a field takes at a reset of a kind. Kind 0 is the hard one.
#[derive(Clone, Copy, Debug)]
pub struct ResetRow {
    /// The field.
    pub field: u32,
    /// The kind of reset.
    pub kind: u32,
    /// The value.
    pub value: u64,
}

/// A memory: its locations are from `first` on among those of all memories.
#[derive(Clone, Copy, Debug)]
pub struct MemRow {
    /// The number of its first location among those of all memories.
    pub first: u32,
    /// How many bytes a location has.
    pub bytes: u32,
    /// How many locations it has.
    pub size: u32,
    /// Whether the bus may write it.
    pub writable: bool,
}

/// Which byte of a cell each enabled lane of a bus word carries.
#[derive(Clone, Copy, Debug)]
pub struct Lanes {
    /// Bit `l` says that lane `l` carries a byte of the cell.
    pub enabled: u8,
    /// The byte of the cell that lane `l` carries, counted from its lowest.
    pub bytes: [u8; 8],
}

impl Lanes {
    ghost use Rattle.std.specs.Prelude.{◌≡◌, ◌<◌};
    ghost use Rattle.rl_policy.specs.Bits.{bit, from_bits};
    ghost use Rattle.rl_bus.specs.Spread.{AreInCell, spread_bit, lane_bit, gathered_bit};

    fn is_enabled(&self, lane: u32) -> bool
        requires { lane < 8 }
        ensures { result ≡ bit self.now.enabled lane }
    {
        (self.enabled >> lane) & 1 == 1
    }

    /// The bits that a bus word carries, at their places in the cell, and 0 elsewhere.
    pub fn spread(&self, word: u64) -> u64
        requires { AreInCell self.now }
        ensures { result ≡ from_bits 64 (spread_bit self.now (bit word)) }
    {
        let mut bits = 0;
        for lane in 0..8 {
            if self.is_enabled(lane) {
                let place = 8 * u32::from(self.bytes[lane as usize]);
                bits = put(bits, place, 8, take(word, 8 * lane, 8));
            }
        }
        bits
    }

    /// The mask of the cell's bits that an enabled lane carries.
    pub fn covered(&self) -> u64
        requires { AreInCell self.now }
        ensures { result ≡ from_bits 64 (lane_bit self.now) }
    {
        let mut mask = 0;
        for lane in 0..8 {
            if self.is_enabled(lane) {
                mask |= window(8 * u32::from(self.bytes[lane as usize]), 8);
            }
        }
        mask
    }

    /// The bus word that carries these bits of the cell in its enabled lanes, and 0 in the others.
    pub fn gather(&self, bits: u64) -> u64
        requires { AreInCell self.now }
        ensures { result ≡ from_bits 64 (gathered_bit self.now (bit bits)) }
    {
        let mut word = 0;
        for lane in 0..8 {
            if self.is_enabled(lane) {
                let place = 8 * u32::from(self.bytes[lane as usize]);
                word = put(word, 8 * lane, 8, take(bits, place, 8));
            }
        }
        word
    }
}

/// A word of a cell, where it is, and the directions in which its place lets items through.
#[derive(Clone, Copy, Debug)]
pub struct WordRow {
    /// Its address at the port.
    pub address: u64,
    /// The register or location that it is a word of.
    pub cell: Cell,
    /// The port of the device.
    pub port: u32,
    /// The place of the item.
    pub place: u32,
    /// Which bytes of the cell it carries.
    pub lanes: Lanes,
    /// Whether reads are let through.
    pub reads: bool,
    /// Whether writes are let through.
    pub writes: bool,
}

/// A flaw: the field has this policy in the device.
#[derive(Clone, Copy, Debug)]
pub struct PolicyRow {
    /// The field.
    pub field: u32,
    /// Its policy in the device.
    pub policy: Policy,
}

/// A flaw: bit `bit` of the field always has this value.
#[derive(Clone, Copy, Debug)]
pub struct StuckRow {
    /// The field.
    pub field: u32,
    /// The bit of the field, counted from 0.
    pub bit: u32,
    /// The value that it always has.
    pub value: bool,
}

/// A flaw: items at the addresses from `from` to `to` fail.
#[derive(Clone, Copy, Debug)]
pub struct RangeRow {
    /// The port.
    pub port: u32,
    /// The first address.
    pub from: u64,
    /// The last address.
    pub to: u64,
}

/// A flaw: bus writes don't reach the register or the memory.
#[derive(Clone, Copy, Debug, PartialEq, Eq)]
pub enum ItemRow {
    /// A register.
    Reg { reg: u32 },
    /// A memory.
    Mem { mem: u32 },
}
