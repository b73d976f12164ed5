//! A path of address maps, from an item's own map up to the root.
//!
//! An item is cut into words anew at each map of its path. How the words of a narrower map lie in the lanes
//! of a wider one, and what an address of a word-addressed map is in its parent, are this project's own.
ghost use Rattle.std.specs.Prelude.{◌≡◌, ℕ, ◌+◌, ◌*◌, ◌<◌, ◌≤◌, ◌^◌, ◌↔◌, IsTrue, List, [], ◌∷◌, ◌++◌, length};

use std::marker::Model;

/// Where the words of an item that is wider than the map are: the endian kinds of `uvm_reg_map` (IEEE 1800.2-2017,
/// 18.2).
///
/// The order of the words in time, which is that of ascending addresses without a FIFO, and the same rule at
/// each map of a path are this project's own.
#[derive(Clone, Copy, Debug, PartialEq, Eq)]
pub enum Kind {
    /// `UVM_LITTLE_ENDIAN`: the least significant word first, at ascending addresses.
    Little,
    /// `UVM_BIG_ENDIAN`: the most significant word first, at ascending addresses.
    Big,
    /// `UVM_LITTLE_FIFO`: the least significant word first, all at one address.
    LittleFifo,
    /// `UVM_BIG_FIFO`: the most significant word first, all at one address.
    BigFifo,
}

/// One map of a path.
#[derive(Clone, Copy)]
pub struct Level {
    /// The width in bytes: 1, 2, 4 or 8.
    pub bytes: u64,
    /// Where the words of a wider item are.
    pub kind: Kind,
    /// Addresses count words of the map's own width, and not bytes.
    pub word: bool,
    /// Where the map starts in its parent, in the parent's unit of addresses.
    pub offset: u64,
}

/// At most four maps, from an item's own up to the root.
#[derive(Drop)]
pub struct Path {
    len: usize,
    levels: [Level; 4],
}

impl Model for Path {
    ghost use Rattle.std.specs.Prelude.{◌≡◌, List, length, take, ◌≤◌};
    ghost use Rattle.rl_map.specs.declared.path.Level.{Level};

    ghost Value = { List Level };

    ghost view = { λ p. take p.len p.levels };

    ghost invariant = { λ p. (p.len ≤ 4) × (length p.levels ≡ 4) };
}

impl Kind {
    ghost use Rattle.rl_map.specs.Access.{place_in_time, address_of};
    ghost use Rattle.rl_map.specs.Level.{is_fifo};

    /// How many of the `count` chunks of an access go before chunk `chunk`.
    pub(crate) fn place_in_time(self, count: u64, chunk: u64) -> u64
        requires { chunk < count }
        ensures { result ≡ place_in_time self count chunk }
    {
        match self {
            Kind::Little | Kind::LittleFifo => chunk,
            Kind::Big | Kind::BigFifo => count - 1 - chunk,
        }
    }

    /// The address of a chunk of an access that starts at `start`.
    pub(crate) fn address(self, start: u128, stride: u64, count: u64, chunk: u64) -> u128
        requires in_count { chunk < count }
        requires fits { start + stride * count < 2 ^ 128 }
        requires small { stride * count < 2 ^ 64 }
        ensures { result ≡ address_of self start stride count chunk }
    {
        match self {
            Kind::Little => start + u128::from(stride * chunk),
            Kind::Big => start + u128::from(stride * (count - 1 - chunk)),
            Kind::LittleFifo | Kind::BigFifo => start,
        }
    }

    /// Whether all words of an item go to one address.
    pub(crate) fn is_fifo(self) -> bool
        ensures { result ≡ is_fifo self }
    {
        matches!(self, Kind::LittleFifo | Kind::BigFifo)
    }
}

impl Level {
    ghost use Rattle.rl_map.specs.Level.{stride_of};

    /// How far apart two neighbouring words are, in the map's unit of addresses.
    pub(crate) fn stride(&self) -> u64
        ensures { result ≡ stride_of self.now }
    {
        if self.word { 1 } else { self.bytes }
    }
}

impl Path {
    ghost use Rattle.rl_map.specs.Level.{has_fifo};

    const NONE: Level = Level {
        bytes: 1,
        kind: Kind::Little,
        word: false,
        offset: 0,
    };

    /// The path of a root.
    pub(crate) fn of_root(level: Level) -> Path
        ensures { result ≡ level ∷ [] }
    {
        let mut levels = [Path::NONE; 4];
        levels[0] = level;
        Path { len: 1, levels }
    }

    /// The path of a map in the map of another path.
    pub(crate) fn under(level: Level, parent: &Path) -> Path
        requires { length parent.now < 4 }
        ensures { result ≡ level ∷ parent.now }
    {
        let mut levels = [Path::NONE; 4];
        levels[0] = level;
        levels[1..parent.len + 1].copy_from_slice(&parent.levels[..parent.len]);
        Path {
            len: parent.len + 1,
            levels,
        }
    }

    /// Its maps.
    pub(crate) fn levels(&self) -> &[Level]
        ensures levels { result.now ≡ self.now }
        ensures short { length result.now ≤ 4 }
    {
        &self.levels[..self.len]
    }

    /// Whether a map of the path is of a FIFO kind.
    pub(crate) fn has_fifo(&self) -> bool
        ensures { result ≡ has_fifo self.now }
    {
        self.levels().iter().any(|level| level.kind.is_fifo())
    }
}
