//! What a sequence does at a place: its operations, turn by turn and part by part.
ghost use Rattle.std.specs.Prelude.{◌≡◌, ◌+◌, ◌*◌, ◌<◌, ◌==◌, length, IfSome};
ghost use Rattle.rl_model.specs.Fields.{size_of};
ghost use Rattle.rl_model.specs.declared.rows.Item.TheVariants.{Mem};
ghost use Rattle.rl_access.specs.Rules.{memory_size};
ghost use Rattle.rl_access.specs.declared.event.Op.TheVariants as op;
ghost use Rattle.rl_seq.specs.Choice.{turned_round};
ghost use Rattle.rl_seq.specs.Sequences.{items_of};
ghost use Rattle.rl_seq.specs.Visits.{visit_of, IsVisit, IsStep, turns_of, parts_of, part_of};
ghost use Rattle.rl_seq.specs.Visits.{bash_part, access_part, share_part, some_if, walk_part};

use crate::choice::{is_bit_compared, is_of, low_bits, may_read, turned_round};
use crate::sequence::Sequence;
use rl_access::{Model, Op};
use rl_model::{Chip, Item};

/// What a sequence does at a place, with the value that was mirrored as it came there where it needs that.
#[derive(Clone, Copy)]
pub(crate) enum Visit {
    Check { reg: u32, map: u32 },
    Bash { reg: u32, map: u32 },
    Access { reg: u32, map: u32, value: u64 },
    Share { reg: u32, place: u32, value: u64 },
    Walk { mem: u32, map: u32 },
}

impl Visit {
    /// What the sequence does at the place.
    pub(crate) fn of(sequence: Sequence, model: &Model, number: u32, place: u32) -> Visit
        requires number { number < items_of sequence model.now.chip }
        requires place { place < length model.now.layout.places }
        ensures visit { result ≡ visit_of sequence model.now number place }
        ensures numbers { IsVisit model.now.chip model.now.layout result }
    {
        let map = model.layout().map_of(place);
        match sequence {
            Sequence::HwReset => Visit::Check { reg: number, map },
            Sequence::BitBash => Visit::Bash { reg: number, map },
            Sequence::Access => {
                let value = model.mirror().mirrored(number);
                Visit::Access {
                    reg: number,
                    map,
                    value,
                }
            }
            Sequence::Shared => {
                let value = model.mirror().mirrored(number);
                Visit::Share {
                    reg: number,
                    place,
                    value,
                }
            }
            Sequence::MemWalk => Visit::Walk { mem: number, map },
        }
    }

    /// How many turns it has: one for each bit, for the write and each place, or for each location.
    pub(crate) fn turns(self, model: &Model) -> u32
        requires { IsVisit model.now.chip model.now.layout self }
        ensures { result ≡ turns_of model.now.chip model.now.layout self }
    {
        match self {
            Visit::Check { .. } | Visit::Access { .. } => 1,
            Visit::Bash { reg, .. } => 8 * model.chip().bytes(Item::Reg(reg)),
            Visit::Share { .. } => model.layout().places() + 1,
            Visit::Walk { mem, .. } => model.chip().size(mem),
        }
    }

    /// How many parts a turn has.
    pub(crate) fn parts(self, model: &Model, turn: u32) -> u32
        requires { IsVisit model.now.chip model.now.layout self }
        ensures { result ≡ parts_of model.now.chip self turn }
    {
        match self {
            Visit::Check { .. } | Visit::Share { .. } => 1,
            Visit::Bash { reg, .. } if !is_bit_compared(model.chip(), reg, turn) => 0,
            _ => 4,
        }
    }

    /// The operation at a part of a turn, from what is mirrored now; none where the part is left out.
    pub(crate) fn part(self, model: &Model, turn: u32, part: u32) -> Option<Op>
        requires visit { IsVisit model.now.chip model.now.layout self }
        requires turn { turn < turns_of model.now.chip model.now.layout self }
        ensures part { result ≡ part_of model.now.chip model.now.layout model.now.mirror self turn part }
        ensures step { IfSome result (IsStep model.now.chip model.now.layout) }
    {
        match self {
            Visit::Check { reg, map } => Some(Op::Check {
                reg,
                map: Some(map),
            }),
            Visit::Bash { reg, map } => Some(bash(model, reg, map, turn, part)),
            Visit::Access { reg, map, value } => Some(access(model, reg, map, value, part)),
            Visit::Share { reg, place, value } => share(model, reg, place, value, turn),
            Visit::Walk { mem, map } => walk(model, mem, map, turn, part),
        }
    }
}

// The write of the mirrored value with one bit turned round, and then the check.
fn bash(model: &Model, reg: u32, map: u32, bit: u32, part: u32) -> Op
    requires reg { reg < length model.now.chip.regs }
    requires map { map < length model.now.layout.maps }
    requires bit { bit < 8 * size_of model.now.chip reg }
    ensures part { result ≡ bash_part model.now.mirror reg map bit part }
    ensures step { IsStep model.now.chip model.now.layout result }
{
    let map = Some(map);
    if part % 2 == 0 {
        let value = model.mirror().mirrored(reg) ^ (1 << bit);
        Op::Write { reg, map, value }
    } else {
        Op::Check { reg, map }
    }
}

// Over the bus and checked by the backdoor, and then the other way round.
fn access(model: &Model, reg: u32, map: u32, value: u64, part: u32) -> Op
    requires reg { reg < length model.now.chip.regs }
    requires map { map < length model.now.layout.maps }
    ensures part { result ≡ access_part model.now.chip reg map value part }
    ensures step { IsStep model.now.chip model.now.layout result }
{
    let map = Some(map);
    match part {
        0 => {
            let value = turned_round(model.chip(), Item::Reg(reg), value);
            Op::Write { reg, map, value }
        }
        1 => Op::BackCheck { reg },
        2 => Op::BackWrite { reg, value },
        _ => Op::Check { reg, map },
    }
}

// The write at the place in turn 0, and then the check at each other place of the register that may be read.
fn share(model: &Model, reg: u32, place: u32, value: u64, turn: u32) -> Option<Op>
    requires reg { reg < length model.now.chip.regs }
    requires place { place < length model.now.layout.places }
    requires turn { turn < length model.now.layout.places + 1 }
    ensures part { result ≡ share_part model.now.chip model.now.layout reg place value turn }
    ensures step { IfSome result (IsStep model.now.chip model.now.layout) }
{
    let layout = model.layout();
    let Some(other) = turn.checked_sub(1) else {
        let map = Some(layout.map_of(place));
        let value = turned_round(model.chip(), Item::Reg(reg), value);
        return Some(Op::Write { reg, map, value });
    };
    if other == place || !is_of(layout, other, Item::Reg(reg)) || !may_read(layout, other) {
        return None;
    }
    let map = Some(layout.map_of(other));
    Some(Op::Check { reg, map })
}

// The location takes its number turned round; the one before it is checked, and takes its number; the last is checked.
fn walk(model: &Model, mem: u32, map: u32, turn: u32, part: u32) -> Option<Op>
    requires mem { mem < length model.now.chip.mems }
    requires map { map < length model.now.layout.maps }
    ensures part { result ≡ walk_part model.now.chip mem map turn part }
    ensures step { IfSome result (IsStep model.now.chip model.now.layout) }
{
    let item = Item::Mem(mem);
    match part {
        0 => {
            let value = turned_round(model.chip(), item, u64::from(turn));
            Some(write_at(mem, map, turn, value))
        }
        1 => Some(check_filled(model.chip(), mem, map, turn.checked_sub(1)?)),
        2 => {
            let before = turn.checked_sub(1)?;
            let value = low_bits(model.chip(), item, u64::from(before));
            Some(write_at(mem, map, before, value))
        }
        _ => check_last(model.chip(), mem, map, turn),
    }
}

// Writes the value to the location.
fn write_at(mem: u32, map: u32, number: u32, value: u64) -> Op
    ensures { result ≡ op.MemWrite mem (Some map) number value }
{
    Op::MemWrite {
        mem,
        map: Some(map),
        index: u64::from(number),
        value,
    }
}

// Checks that the location has its number turned round.
fn check_filled(chip: &Chip, mem: u32, map: u32, number: u32) -> Op
    requires { mem < length chip.now.mems }
    ensures { result ≡ op.MemCheck mem (Some map) number (turned_round chip.now (Mem mem) number) }
{
    let index = u64::from(number);
    let value = turned_round(chip, Item::Mem(mem), index);
    Op::MemCheck {
        mem,
        map: Some(map),
        index,
        value,
    }
}

// Checks the location, if it is the last one.
fn check_last(chip: &Chip, mem: u32, map: u32, number: u32) -> Option<Op>
    requires { mem < length chip.now.mems }
    ensures { result ≡ some_if (number + 1 == memory_size chip.now mem)
        (op.MemCheck mem (Some map) number (turned_round chip.now (Mem mem) number)) }
{
    if number == chip.size(mem) - 1 {
        Some(check_filled(chip, mem, map, number))
    } else {
        None
    }
}
