// The names in a line, as numbers of the model.
ghost use Rattle.std.specs.Prelude.{◌≡◌, ◌<◌, ℕ, true, length, IfSome};
ghost use Rattle.rl_access.specs.Operation.{IsMapIn, HasNumbers, is_single};
ghost use Rattle.rl_script.specs.declared.command.Kind.TheVariants as kind;
ghost use Rattle.rl_script.specs.Commands.{kind_of};
ghost use Rattle.rl_script.specs.Said.{item_said, line_said};
ghost use Rattle.rl_log.specs.Named.{map_asked, reg_named, field_named, mem_named, block_named, block_asked};
ghost use Rattle.rl_log.specs.Named.{kind_named, number_on, op_with, item_op, op_named};

use rl_access::{Model, Op};
use rl_script::{IdentRef, Item, ItemLine, Kind, LineRef, PathRef};

/// The map that is asked for, if one is. None where it isn't there.
pub fn map_asked(model: &Model, name: &Option<IdentRef<'_>>) -> Option<Option<u32>>
    ensures named { result ≡ map_asked model.now.layout name.now }
    ensures in_range { IfSome result (IsMapIn (length model.now.layout.maps)) }
{
    match name {
        None => Some(None),
        Some(name) => match model.layout().map_by_name(name.text()) {
            Some(number) => Some(Some(number)),
            None => None,
        },
    }
}

fn reg_at(model: &Model, path: &PathRef<'_>) -> Option<u32>
    ensures { result ≡ reg_named model.now.chip path.now }
{
    model.chip().reg_by_path(path.text())
}

fn field_at(model: &Model, path: &PathRef<'_>) -> Option<u32>
    ensures { result ≡ field_named model.now.chip path.now }
{
    model.chip().field_by_path(path.text())
}

/// The memory of a path, if it is there.
pub fn mem_at(model: &Model, path: &PathRef<'_>) -> Option<u32>
    ensures named { result ≡ mem_named model.now.chip path.now }
    ensures in_range { IfSome result (λ n. n < length model.now.chip.mems) }
{
    model.chip().mem_by_path(path.text())
}

fn block_at(model: &Model, path: &PathRef<'_>) -> Option<u32>
    ensures named { result ≡ block_named model.now.chip path.now }
    ensures in_range { IfSome result (λ n. n < model.now.chip.blocks) }
{
    model.chip().block_by_path(path.text())
}

fn kind_named(model: &Model, name: &IdentRef<'_>) -> Option<u32>
    ensures { result ≡ kind_named model.now.chip name.now }
{
    model.chip().kind_by_name(name.text())
}

// The number of what a command of this kind is on.
fn number_on(model: &Model, kind: Kind, path: &PathRef<'_>) -> Option<u32>
    ensures { result ≡ number_on model.now.chip kind path.now }
{
    match kind {
        Kind::Register => reg_at(model, path),
        Kind::Field => field_at(model, path),
        Kind::Memory => mem_at(model, path),
    }
}

fn reg_op(item: Item, reg: u32, map: Option<u32>, value: u64) -> Op
    requires { kind_of item ≡ kind.Register }
    ensures { (second : ℕ) → result ≡ op_with item reg map value second }
{
    match item {
        Item::Write => Op::Write { reg, map, value },
        Item::Read => Op::Read { reg, map },
        Item::Mirror => Op::Mirror { reg, map },
        Item::Check => Op::Check { reg, map },
        Item::Update => Op::Update { reg, map },
        Item::OtherWrite => Op::OtherWrite { reg, map, value },
        Item::OtherRead => Op::OtherRead { reg, map },
        Item::Show => Op::Show { reg },
        Item::BackRead => Op::BackRead { reg },
        Item::BackCheck => Op::BackCheck { reg },
        Item::Peek => Op::Peek { reg },
        Item::BackWrite => Op::BackWrite { reg, value },
        Item::Poke => Op::Poke { reg, value },
        _ => unreachable!(),
    }
}

fn field_op(item: Item, field: u32, map: Option<u32>, value: u64) -> Op
    requires { kind_of item ≡ kind.Field }
    ensures { (second : ℕ) → result ≡ op_with item field map value second }
{
    match item {
        Item::FieldWrite => Op::FieldWrite { field, map, value },
        Item::FieldRead => Op::FieldRead { field, map },
        Item::Set => Op::Set { field, value },
        Item::Hw => Op::Hw { field, value },
        _ => unreachable!(),
    }
}

fn mem_op(item: Item, mem: u32, map: Option<u32>, index: u64, value: u64) -> Op
    requires { kind_of item ≡ kind.Memory }
    ensures { result ≡ op_with item mem map index value }
{
    match item {
        Item::MemWrite => Op::MemWrite {
            mem,
            map,
            index,
            value,
        },
        Item::MemCheck => Op::MemCheck {
            mem,
            map,
            index,
            value,
        },
        Item::MemRead => Op::MemRead { mem, map, index },
        Item::BurstRead => Op::BurstRead {
            mem,
            map,
            first: index,
            count: value,
        },
        Item::MemPeek => Op::MemPeek { mem, index },
        Item::MemPoke => Op::MemPoke { mem, index, value },
        _ => unreachable!(),
    }
}

// The operation of a command, by the numbers of what it is on and of its map.
fn op_with(item: Item, number: u32, map: Option<u32>, first: u64, second: u64) -> Op
    ensures { result ≡ op_with item number map first second }
{
    match item.kind() {
        Kind::Register => reg_op(item, number, map, first),
        Kind::Field => field_op(item, number, map, first),
        Kind::Memory => mem_op(item, number, map, first, second),
    }
}

// The operation of a line on an item, if its names are there.
fn item_op(model: &Model, line: &ItemLine<'_>) -> Option<Op>
    ensures { result ≡ item_op model.now line.now }
{
    let number = number_on(model, line.item.kind(), &line.path)?;
    let map = if line.item.row().map {
        map_asked(model, &line.map)?
    } else {
        None
    };
    Some(op_with(line.item, number, map, line.first, line.second))
}

// The operation of a line on an item that is no burst.
#[tactic(auto, using(crate::proofs::NamedLemmas::item_op_is))]
fn single_op(model: &Model, line: &ItemLine<'_>) -> Option<Op>
    ensures { result ≡ op_named model.now (item_said line.now) }
{
    match line.item {
        Item::BurstRead => None,
        _ => item_op(model, line),
    }
}

fn line_op(model: &Model, line: &LineRef<'_>) -> Option<Op>
    ensures { result ≡ op_named model.now (line_said line.now) }
{
    match line {
        LineRef::OnItem(line) => single_op(model, line),
        LineRef::Reset { kind } => Some(Op::Reset {
            kind: kind_named(model, kind)?,
        }),
        _ => None,
    }
}

/// The operation of a line, if its names are there.
pub fn op_of(model: &Model, line: &LineRef<'_>) -> Option<Op>
    ensures named { result ≡ op_named model.now (line_said line.now) }
    ensures numbers { IfSome result (HasNumbers model.now.chip (length model.now.layout.maps)) }
    ensures single { IfSome result (λ op. is_single op ≡ true) }
{
    line_op(model, line)
}

/// The block that a sequence goes over: none stands for the whole chip. None where it isn't there.
pub fn block_asked(model: &Model, path: &Option<PathRef<'_>>) -> Option<Option<u32>>
    ensures named { result ≡ block_asked model.now.chip path.now }
    ensures in_range { IfSome result (λ block. IfSome block (λ b. b < model.now.chip.blocks)) }
{
    match path {
        None => Some(None),
        Some(path) => match block_at(model, path) {
            Some(number) => Some(Some(number)),
            None => None,
        },
    }
}
