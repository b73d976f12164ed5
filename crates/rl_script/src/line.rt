//! What a line says.
ghost use Rattle.std.specs.Prelude.{◌≡◌, None};
ghost use Rattle.rl_script.specs.Commands.{said, said_of_memory, saying};

use crate::command::Item;
use crate::line_ref::ItemLine;
use crate::names::{Ident, Path, name_ref};
use crate::values::Values;

/// A sequence of checks over the registers or memories of a block: five predefined ones (IEEE 1800.2-2017, Annex E).
#[derive(Clone, Copy, Debug, PartialEq, Eq)]
pub enum Sequence {
    /// `hw-reset`: the reset values (`uvm_reg_hw_reset_seq`).
    HwReset,
    /// `bit-bash`: each bit both ways (`uvm_reg_bit_bash_seq`).
    BitBash,
    /// `access`: frontdoor against backdoor (`uvm_reg_access_seq`).
    Access,
    /// `shared`: a register through each of its maps (`uvm_reg_shared_access_seq`).
    Shared,
    /// `mem-walk`: a walk over each memory (`uvm_mem_walk_seq`).
    MemWalk,
}

/// What a line of a script says: a command and its operands.
///
/// A `map` is the map through which an access goes; with none it goes through the first place of the
/// register or memory.
#[derive(Debug, Drop)]
pub enum Line {
    /// No word, or a comment alone.
    Blank,
    /// `write REG V`, maybe with a map as `@MAP`: writes through the frontdoor.
    Write {
        reg: Path,
        value: u64,
        map: Option<Ident>,
    },
    /// `read REG`: reads through the frontdoor.
    Read {
        reg: Path,
        map: Option<Ident>,
    },
    /// `mirror REG`: reads, and takes what was read as the mirrored value.
    Mirror {
        reg: Path,
        map: Option<Ident>,
    },
    /// `check REG`: reads, and compares with the mirrored value.
    Check {
        reg: Path,
        map: Option<Ident>,
    },
    /// `update REG`: writes the desired value where it differs from the mirrored one.
    Update {
        reg: Path,
        map: Option<Ident>,
    },
    /// `other-write REG V`: a write of another master.
    OtherWrite {
        reg: Path,
        value: u64,
        map: Option<Ident>,
    },
    /// `other-read REG`: a read of another master.
    OtherRead {
        reg: Path,
        map: Option<Ident>,
    },
    /// `field-write FIELD V`: writes one field through the frontdoor.
    FieldWrite {
        field: Path,
        value: u64,
        map: Option<Ident>,
    },
    /// `field-read FIELD`: reads one field through the frontdoor.
    FieldRead {
        field: Path,
        map: Option<Ident>,
    },
    /// `set FIELD V`: sets the desired value.
    Set {
        field: Path,
        value: u64,
    },
    /// `hw FIELD V`: the device itself changes a field.
    Hw {
        field: Path,
        value: u64,
    },
    /// `show REG`: the desired and the mirrored value, with no access.
    Show {
        reg: Path,
    },
    /// `back-read REG`: reads through the backdoor.
    BackRead {
        reg: Path,
    },
    /// `back-check REG`: reads through the backdoor, and compares.
    BackCheck {
        reg: Path,
    },
    /// `peek REG`: samples the bits with no read effect.
    Peek {
        reg: Path,
    },
    /// `back-write REG V`: writes through the backdoor.
    BackWrite {
        reg: Path,
        value: u64,
    },
    /// `poke REG V`: deposits the bits with no write effect.
    Poke {
        reg: Path,
        value: u64,
    },
    /// `mem-write MEM K V`: writes location K of a memory.
    MemWrite {
        mem: Path,
        index: u64,
        value: u64,
        map: Option<Ident>,
    },
    /// `mem-check MEM K V`: reads a location, and compares with V.
    MemCheck {
        mem: Path,
        index: u64,
        value: u64,
        map: Option<Ident>,
    },
    /// `mem-read MEM K`: reads a location.
    MemRead {
        mem: Path,
        index: u64,
        map: Option<Ident>,
    },
    /// `burst-write MEM K V ..`: writes locations from K on.
    BurstWrite {
        mem: Path,
        first: u64,
        values: Values,
        map: Option<Ident>,
    },
    /// `burst-read MEM K N`: reads N locations from K on.
    BurstRead {
        mem: Path,
        first: u64,
        count: u64,
        map: Option<Ident>,
    },
    /// `mem-peek MEM K`: samples a location through the backdoor.
    MemPeek {
        mem: Path,
        index: u64,
    },
    /// `mem-poke MEM K V`: deposits a location through the backdoor.
    MemPoke {
        mem: Path,
        index: u64,
        value: u64,
    },
    /// `reset KIND`: resets model and device.
    Reset {
        kind: Ident,
    },
    /// `seq NAME BLOCK`, or `seq NAME *`: over one block, or with no block over the whole chip.
    Seq {
        which: Sequence,
        block: Option<Path>,
    },
}

// With no map.
fn plain<'a>(item: Item, path: &'a Path, first: u64, second: u64) -> ItemLine<'a>
    ensures { result ≡ saying item path.now first second None }
{
    ItemLine {
        item,
        path: path.by_ref(),
        first,
        second,
        map: None,
    }
}

fn through<'a>(
    item: Item,
    path: &'a Path,
    first: u64,
    second: u64,
    map: &'a Option<Ident>,
) -> ItemLine<'a>
    ensures { result ≡ saying item path.now first second map.now }
{
    ItemLine {
        item,
        path: path.by_ref(),
        first,
        second,
        map: name_ref(map),
    }
}

impl Line {
    /// What it says where it is on one register, field or memory.
    pub(crate) fn on_item(&self) -> Option<ItemLine<'_>>
        ensures { result ≡ said self.now }
    {
        Some(match self {
            Line::Write { reg, value, map } => through(Item::Write, reg, *value, 0, map),
            Line::Read { reg, map } => through(Item::Read, reg, 0, 0, map),
            Line::Mirror { reg, map } => through(Item::Mirror, reg, 0, 0, map),
            Line::Check { reg, map } => through(Item::Check, reg, 0, 0, map),
            Line::Update { reg, map } => through(Item::Update, reg, 0, 0, map),
            Line::OtherWrite { reg, value, map } => through(Item::OtherWrite, reg, *value, 0, map),
            Line::OtherRead { reg, map } => through(Item::OtherRead, reg, 0, 0, map),
            Line::Show { reg } => plain(Item::Show, reg, 0, 0),
            Line::BackRead { reg } => plain(Item::BackRead, reg, 0, 0),
            Line::BackCheck { reg } => plain(Item::BackCheck, reg, 0, 0),
            Line::Peek { reg } => plain(Item::Peek, reg, 0, 0),
            Line::BackWrite { reg, value } => plain(Item::BackWrite, reg, *value, 0),
            Line::Poke { reg, value } => plain(Item::Poke, reg, *value, 0),
            Line::FieldWrite { field, value, map } => through(
                Item::FieldWrite,
                field,
                *value,
                0,
                map,
            ),
            Line::FieldRead { field, map } => through(Item::FieldRead, field, 0, 0, map),
            Line::Set { field, value } => plain(Item::Set, field, *value, 0),
            Line::Hw { field, value } => plain(Item::Hw, field, *value, 0),
            Line::MemWrite { .. }
            | Line::MemCheck { .. }
            | Line::MemRead { .. }
            | Line::BurstRead { .. }
            | Line::MemPeek { .. }
            | Line::MemPoke { .. } => return self.on_memory(),
            _ => return None,
        })
    }

    fn on_memory(&self) -> Option<ItemLine<'_>>
        ensures { result ≡ said_of_memory self.now }
    {
        Some(match self {
            Line::MemWrite {
                mem,
                index,
                value,
                map,
            } => through(Item::MemWrite, mem, *index, *value, map),
            Line::MemCheck {
                mem,
                index,
                value,
                map,
            } => through(Item::MemCheck, mem, *index, *value, map),
            Line::MemRead { mem, index, map } => through(Item::MemRead, mem, *index, 0, map),
            Line::BurstRead {
                mem,
                first,
                count,
                map,
            } => through(Item::BurstRead, mem, *first, *count, map),
            Line::MemPeek { mem, index } => plain(Item::MemPeek, mem, *index, 0),
            Line::MemPoke { mem, index, value } => plain(Item::MemPoke, mem, *index, *value),
            _ => return None,
        })
    }
}
