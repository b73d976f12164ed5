//! The table of commands, each with its operands.
ghost use Rattle.std.specs.Prelude.{◌≡◌, find, ℕ};
ghost use Rattle.std.specs.Str.{bytes_eq};
ghost use Rattle.rl_script.specs.declared.command.Kind.TheVariants as Kind;
ghost use Rattle.rl_script.specs.Commands.{row_of, kind_of, line_of, may_count, item_name, command_name};
ghost use Rattle.rl_script.specs.Commands.{command_named, items, register_items, other_items, field_items};
ghost use Rattle.rl_script.specs.Commands.{backdoor_items, memory_items, other_commands, sequence_name};
ghost use Rattle.rl_script.specs.Commands.{sequence_named};

use self::Command::OnItem;
use crate::line::{Line, Sequence};
use crate::names::{Ident, Path};

/// A command by its first word.
#[derive(Clone, Copy, Debug, PartialEq, Eq)]
pub enum Command {
    /// A command on one register, field or memory.
    OnItem(Item),
    /// `burst-write`: writes locations of a memory, one for each value (`uvm_mem::burst_write`, IEEE 1800.2-2017,
    /// 18.6).
    BurstWrite,
    /// `reset`: resets the model (`uvm_reg_field::reset`, IEEE 1800.2-2017, 18.5) and the device.
    Reset,
    /// `seq`: a sequence of checks, one of the five (IEEE 1800.2-2017, Annex E).
    Seq,
}

/// A command on one register, field or memory: a path, up to two numbers, and maybe a map.
///
/// Each names the method that it stands for, of `uvm_reg` (IEEE 1800.2-2017, 18.4), of `uvm_reg_field` (18.5) or of
/// `uvm_mem` (18.6), or says that it is this project's own.
#[derive(Clone, Copy, Debug, PartialEq, Eq)]
pub enum Item {
    /// `write REG V`: writes through the frontdoor (`uvm_reg::write`).
    Write,
    /// `read REG`: reads through the frontdoor (`uvm_reg::read`).
    Read,
    /// `mirror REG`: reads, and takes what was read as the mirrored value (`uvm_reg::mirror`).
    Mirror,
    /// `check REG`: reads, and compares with the mirrored value (`uvm_reg::mirror` with `UVM_CHECK`).
    Check,
    /// `update REG`: writes the desired value where it differs from the mirrored one (`uvm_reg::update`).
    Update,
    /// `other-write REG V`: a write of another master, this project's own.
    OtherWrite,
    /// `other-read REG`: a read of another master, this project's own.
    OtherRead,
    /// `field-write FIELD V`: writes one field through the frontdoor (`uvm_reg_field::write`).
    FieldWrite,
    /// `field-read FIELD`: reads one field through the frontdoor (`uvm_reg_field::read`).
    FieldRead,
    /// `set FIELD V`: sets the desired value (`uvm_reg_field::set`).
    Set,
    /// `hw FIELD V`: the device itself changes a field, this project's own.
    Hw,
    /// `show REG`: the desired and the mirrored value, with no access (`uvm_reg_field::get` and
    /// `get_mirrored_value`).
    Show,
    /// `back-read REG`: reads through the backdoor (`uvm_reg::read`).
    BackRead,
    /// `back-check REG`: reads through the backdoor, and compares (`uvm_reg::mirror` with `UVM_CHECK`).
    BackCheck,
    /// `peek REG`: samples the bits with no read effect (`uvm_reg::peek`).
    Peek,
    /// `back-write REG V`: writes through the backdoor (`uvm_reg::write`).
    BackWrite,
    /// `poke REG V`: deposits the bits with no write effect (`uvm_reg::poke`).
    Poke,
    /// `mem-write MEM K V`: writes location K of a memory (`uvm_mem::write`).
    MemWrite,
    /// `mem-check MEM K V`: reads a location, and compares with V, this project's own.
    MemCheck,
    /// `mem-read MEM K`: reads a location (`uvm_mem::read`).
    MemRead,
    /// `burst-read MEM K N`: reads N locations from K on (`uvm_mem::burst_read`).
    BurstRead,
    /// `mem-peek MEM K`: samples a location through the backdoor (`uvm_mem::peek`).
    MemPeek,
    /// `mem-poke MEM K V`: deposits a location through the backdoor (`uvm_mem::poke`).
    MemPoke,
}

/// What a command is on.
#[derive(Clone, Copy, Debug, PartialEq, Eq)]
pub enum Kind {
    /// A register.
    Register,
    /// A field of a register.
    Field,
    /// A memory.
    Memory,
}

/// What follows the path of a command on one item.
#[derive(Clone, Copy, Debug, PartialEq, Eq)]
pub struct Row {
    /// How many numbers, at most two.
    pub numbers: usize,
    /// Whether a map may come last.
    pub map: bool,
}

impl Command {
    /// The first word of its lines.
    pub fn name(self) -> &'static [u8]
        ensures { result.now ≡ command_name self }
    {
        match self {
            Command::OnItem(item) => item.name(),
            Command::BurstWrite => b"burst-write",
            Command::Reset => b"reset",
            Command::Seq => b"seq",
        }
    }

    pub(crate) fn named(word: &[u8]) -> Option<Command>
        ensures { result ≡ command_named word.now }
    {
        if let Some(item) = Item::named(word) {
            return Some(OnItem(item));
        }
        other_command(word)
    }
}

/// Whether a word is a name.
// Inlined, so that the name's length is known, and the test is a compare or two.
#[inline(always)]
fn is(word: &[u8], name: &[u8]) -> bool
    ensures { result ≡ bytes_eq name.now word.now }
{
    name == word
}

/// A command on no one item, or with many values.
fn other_command(word: &[u8]) -> Option<Command>
    ensures { result ≡ find (λ c. bytes_eq (command_name c) word.now) other_commands }
{
    if is(word, b"burst-write") {
        Some(Command::BurstWrite)
    } else if is(word, b"reset") {
        Some(Command::Reset)
    } else if is(word, b"seq") {
        Some(Command::Seq)
    } else {
        None
    }
}

fn register_item(word: &[u8]) -> Option<Item>
    ensures { result ≡ find (λ item. bytes_eq (item_name item) word.now) register_items }
{
    if is(word, b"write") {
        Some(Item::Write)
    } else if is(word, b"read") {
        Some(Item::Read)
    } else if is(word, b"mirror") {
        Some(Item::Mirror)
    } else if is(word, b"check") {
        Some(Item::Check)
    } else if is(word, b"update") {
        Some(Item::Update)
    } else {
        None
    }
}

/// What another master does.
fn other_item(word: &[u8]) -> Option<Item>
    ensures { result ≡ find (λ item. bytes_eq (item_name item) word.now) other_items }
{
    if is(word, b"other-write") {
        Some(Item::OtherWrite)
    } else if is(word, b"other-read") {
        Some(Item::OtherRead)
    } else {
        None
    }
}

fn field_item(word: &[u8]) -> Option<Item>
    ensures { result ≡ find (λ item. bytes_eq (item_name item) word.now) field_items }
{
    if is(word, b"field-write") {
        Some(Item::FieldWrite)
    } else if is(word, b"field-read") {
        Some(Item::FieldRead)
    } else if is(word, b"set") {
        Some(Item::Set)
    } else if is(word, b"hw") {
        Some(Item::Hw)
    } else {
        None
    }
}

/// What uses no bus, on a register.
fn backdoor_item(word: &[u8]) -> Option<Item>
    ensures { result ≡ find (λ item. bytes_eq (item_name item) word.now) backdoor_items }
{
    if is(word, b"show") {
        Some(Item::Show)
    } else if is(word, b"back-read") {
        Some(Item::BackRead)
    } else if is(word, b"back-check") {
        Some(Item::BackCheck)
    } else if is(word, b"peek") {
        Some(Item::Peek)
    } else if is(word, b"back-write") {
        Some(Item::BackWrite)
    } else if is(word, b"poke") {
        Some(Item::Poke)
    } else {
        None
    }
}

fn memory_item(word: &[u8]) -> Option<Item>
    ensures { result ≡ find (λ item. bytes_eq (item_name item) word.now) memory_items }
{
    if is(word, b"mem-write") {
        Some(Item::MemWrite)
    } else if is(word, b"mem-check") {
        Some(Item::MemCheck)
    } else if is(word, b"mem-read") {
        Some(Item::MemRead)
    } else if is(word, b"burst-read") {
        Some(Item::BurstRead)
    } else if is(word, b"mem-peek") {
        Some(Item::MemPeek)
    } else if is(word, b"mem-poke") {
        Some(Item::MemPoke)
    } else {
        None
    }
}

impl Item {
    fn named(word: &[u8]) -> Option<Item>
        ensures { result ≡ find (λ item. bytes_eq (item_name item) word.now) items }
    {
        if let Some(item) = register_item(word) {
            return Some(item);
        }
        if let Some(item) = other_item(word) {
            return Some(item);
        }
        if let Some(item) = field_item(word) {
            return Some(item);
        }
        if let Some(item) = backdoor_item(word) {
            return Some(item);
        }
        memory_item(word)
    }

    /// The first word of its lines.
    pub fn name(self) -> &'static [u8]
        ensures { result.now ≡ item_name self }
    {
        match self {
            Item::Write => b"write",
            Item::Read => b"read",
            Item::Mirror => b"mirror",
            Item::Check => b"check",
            Item::Update => b"update",
            Item::OtherWrite => b"other-write",
            Item::OtherRead => b"other-read",
            Item::FieldWrite => b"field-write",
            Item::FieldRead => b"field-read",
            Item::Set => b"set",
            Item::Hw => b"hw",
            Item::Show => b"show",
            Item::BackRead => b"back-read",
            Item::BackCheck => b"back-check",
            Item::Peek => b"peek",
            Item::BackWrite => b"back-write",
            Item::Poke => b"poke",
            Item::MemWrite => b"mem-write",
            Item::MemCheck => b"mem-check",
            Item::MemRead => b"mem-read",
            Item::BurstRead => b"burst-read",
            Item::MemPeek => b"mem-peek",
            Item::MemPoke => b"mem-poke",
        }
    }

    /// The command's operands after the path.
    pub fn row(self) -> Row
        ensures { result ≡ row_of self }
    {
        let (numbers, map) = match self {
            Item::Write | Item::OtherWrite | Item::FieldWrite | Item::MemRead => (1, true),
            Item::Read
            | Item::Mirror
            | Item::Check
            | Item::Update
            | Item::OtherRead
            | Item::FieldRead => (0, true),
            Item::Set | Item::Hw | Item::BackWrite | Item::Poke | Item::MemPeek => (1, false),
            Item::Show | Item::BackRead | Item::BackCheck | Item::Peek => (0, false),
            Item::MemWrite | Item::MemCheck | Item::BurstRead => (2, true),
            Item::MemPoke => (2, false),
        };
        Row { numbers, map }
    }

    /// Whether the last number may be so, where it counts something.
    pub(crate) fn may_count(self, number: u64) -> bool
        ensures { result ≡ may_count self number }
    {
        match self {
            Item::BurstRead => matches!(number, 1..=256),
            _ => true,
        }
    }

    /// What the command is on.
    pub fn kind(self) -> Kind
        ensures { result ≡ kind_of self }
    {
        match self {
            Item::FieldWrite | Item::FieldRead | Item::Set | Item::Hw => Kind::Field,
            Item::MemWrite
            | Item::MemCheck
            | Item::MemRead
            | Item::BurstRead
            | Item::MemPeek
            | Item::MemPoke => Kind::Memory,
            _ => Kind::Register,
        }
    }

    /// What the command says with these operands.
    // Inlined with its parts, so that the line is built where it is wanted and not copied on the way.
    #[inline(always)]
    pub(crate) fn line(self, path: Path, first: u64, second: u64, map: Option<Ident>) -> Line
        ensures { result ≡ line_of self path first second map }
    {
        match self.kind() {
            Kind::Register => self.register_line(path, first, map),
            Kind::Field => self.field_line(path, first, map),
            Kind::Memory => self.memory_line(path, first, second, map),
        }
    }

    #[inline(always)]
    fn register_line(self, reg: Path, value: u64, map: Option<Ident>) -> Line
        requires { kind_of self ≡ Kind.Register }
        ensures { (second : ℕ) → result ≡ line_of self reg value second map }
    {
        match self {
            Item::Write => Line::Write { reg, value, map },
            Item::Read => Line::Read { reg, map },
            Item::Mirror => Line::Mirror { reg, map },
            Item::Check => Line::Check { reg, map },
            Item::Update => Line::Update { reg, map },
            Item::OtherWrite => Line::OtherWrite { reg, value, map },
            Item::OtherRead => Line::OtherRead { reg, map },
            Item::Show => Line::Show { reg },
            Item::BackRead => Line::BackRead { reg },
            Item::BackCheck => Line::BackCheck { reg },
            Item::Peek => Line::Peek { reg },
            Item::BackWrite => Line::BackWrite { reg, value },
            Item::Poke => Line::Poke { reg, value },
            _ => unreachable!(),
        }
    }

    #[inline(always)]
    fn field_line(self, field: Path, value: u64, map: Option<Ident>) -> Line
        requires { kind_of self ≡ Kind.Field }
        ensures { (second : ℕ) → result ≡ line_of self field value second map }
    {
        match self {
            Item::FieldWrite => Line::FieldWrite { field, value, map },
            Item::FieldRead => Line::FieldRead { field, map },
            Item::Set => Line::Set { field, value },
            Item::Hw => Line::Hw { field, value },
            _ => unreachable!(),
        }
    }

    #[inline(always)]
    fn memory_line(self, mem: Path, index: u64, value: u64, map: Option<Ident>) -> Line
        requires { kind_of self ≡ Kind.Memory }
        ensures { result ≡ line_of self mem index value map }
    {
        match self {
            Item::MemWrite => Line::MemWrite {
                mem,
                index,
                value,
                map,
            },
            Item::MemCheck => Line::MemCheck {
                mem,
                index,
                value,
                map,
            },
            Item::MemRead => Line::MemRead { mem, index, map },
            Item::BurstRead => Line::BurstRead {
                mem,
                first: index,
                count: value,
                map,
            },
            Item::MemPeek => Line::MemPeek { mem, index },
            Item::MemPoke => Line::MemPoke { mem, index, value },
            _ => unreachable!(),
        }
    }
}

const SEQUENCES: [Sequence; 5] = [
    Sequence::HwReset,
    Sequence::BitBash,
    Sequence::Access,
    Sequence::Shared,
    Sequence::MemWalk,
];

impl Sequence {
    /// The word for it in a script.
    pub fn name(self) -> &'static [u8]
        ensures { result.now ≡ sequence_name self }
    {
        match self {
            Sequence::HwReset => b"hw-reset",
            Sequence::BitBash => b"bit-bash",
            Sequence::Access => b"access",
            Sequence::Shared => b"shared",
            Sequence::MemWalk => b"mem-walk",
        }
    }

    pub(crate) fn named(word: &[u8]) -> Option<Sequence>
        ensures { result ≡ sequence_named word.now }
    {
        SEQUENCES
            .iter()
            .copied()
            .find(|sequence| sequence.name() == word)
    }
}
