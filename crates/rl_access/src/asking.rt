//! What an operation asks for: its name in the log, its register, and whether it is granted.
ghost use Rattle.std.specs.Prelude.{◌≡◌, ◌<◌, length, true, None, Some};
ghost use Rattle.rl_access.specs.Asked.{IsAskedOf, is_over_bus, reads_register, writes_register};
ghost use Rattle.rl_access.specs.Prelude.{HasNumbers, IsMapIn, is_on_memory};
ghost use Rattle.rl_access.specs.Rules.{map_used, watched_way, way};
ghost use Rattle.rl_access.specs.declared.event.Op.TheVariants as op;
ghost use Rattle.rl_model.specs.Chip.{HasItem};
ghost use Rattle.rl_model.specs.declared.rows.Item.TheVariants as item;

use crate::event::Op;
use crate::model::Model;
use crate::refusal::Grant;
use rl_model::Item;

/// An operation as its event names it, the register that it concerns, and the place where it is granted or the first
/// cause of its refusal.
#[derive(Clone, Copy)]
pub(crate) struct Asked {
    pub(crate) op: Op,
    pub(crate) reg: Option<u32>,
    pub(crate) grant: Grant,
}

impl Asked {
    fn of_register(op: Op, reg: u32, grant: Grant) -> Asked
        ensures { result ≡ record { op = op; reg = Some reg; grant = grant } }
    {
        Asked {
            op,
            reg: Some(reg),
            grant,
        }
    }

    fn of_no_register(op: Op, grant: Grant) -> Asked
        ensures { result ≡ record { op = op; reg = None; grant = grant } }
    {
        Asked {
            op,
            reg: None,
            grant,
        }
    }
}

impl Model {
    /// What an operation over the bus asks for.
    pub(crate) fn ask(&self, op: Op) -> Asked
        requires numbers { HasNumbers self.now.chip (length self.now.layout.maps) op }
        requires over_bus { is_over_bus op ≡ true }
        ensures { IsAskedOf self.now op result }
    {
        match op {
            Op::Write { .. } | Op::FieldWrite { .. } | Op::Update { .. } | Op::OtherWrite { .. } =>
                { self.ask_write(op) }
            Op::MemWrite { .. } | Op::MemRead { .. } | Op::MemCheck { .. } => self.ask_location(op),
            _ => self.ask_read(op),
        }
    }

    fn ask_write(&self, op: Op) -> Asked
        requires numbers { HasNumbers self.now.chip (length self.now.layout.maps) op }
        requires writes { writes_register op ≡ true }
        ensures { IsAskedOf self.now op result }
    {
        match op {
            Op::Write { reg, map, value } => {
                let (map, way) = self.through(Item::Reg(reg), map, true);
                let grant = self.fitting(Item::Reg(reg), value, way);
                Asked::of_register(Op::Write { reg, map, value }, reg, grant)
            }
            Op::FieldWrite { field, map, value } => {
                let reg = self.field(field).reg;
                let (map, way) = self.through(Item::Reg(reg), map, true);
                let grant = self.fitting_field(field, value, way);
                Asked::of_register(Op::FieldWrite { field, map, value }, reg, grant)
            }
            Op::Update { reg, map } => {
                let (map, way) = self.through(Item::Reg(reg), map, true);
                Asked::of_register(Op::Update { reg, map }, reg, way)
            }
            Op::OtherWrite { reg, map, value } => {
                let (map, way) = self.watched(reg, map, true);
                let grant = self.fitting(Item::Reg(reg), value, way);
                Asked::of_register(Op::OtherWrite { reg, map, value }, reg, grant)
            }
            _ => unreachable!(),
        }
    }

    fn ask_read(&self, op: Op) -> Asked
        requires numbers { HasNumbers self.now.chip (length self.now.layout.maps) op }
        requires reads { reads_register op ≡ true }
        ensures { IsAskedOf self.now op result }
    {
        match op {
            Op::Read { reg, map } => {
                let (map, way) = self.through(Item::Reg(reg), map, false);
                Asked::of_register(Op::Read { reg, map }, reg, way)
            }
            Op::Mirror { reg, map } => {
                let (map, way) = self.through(Item::Reg(reg), map, false);
                Asked::of_register(Op::Mirror { reg, map }, reg, way)
            }
            Op::Check { reg, map } => {
                let (map, way) = self.through(Item::Reg(reg), map, false);
                Asked::of_register(Op::Check { reg, map }, reg, way)
            }
            Op::FieldRead { field, map } => {
                let reg = self.field(field).reg;
                let (map, way) = self.through(Item::Reg(reg), map, false);
                Asked::of_register(Op::FieldRead { field, map }, reg, way)
            }
            Op::OtherRead { reg, map } => {
                let (map, way) = self.watched(reg, map, false);
                Asked::of_register(Op::OtherRead { reg, map }, reg, way)
            }
            _ => unreachable!(),
        }
    }

    fn ask_location(&self, op: Op) -> Asked
        requires numbers { HasNumbers self.now.chip (length self.now.layout.maps) op }
        requires on_memory { is_on_memory op ≡ true }
        ensures { IsAskedOf self.now op result }
    {
        match op {
            Op::MemRead { mem, map, index } => {
                let (map, way) = self.through(Item::Mem(mem), map, false);
                let grant = self.at_location(mem, index, way);
                Asked::of_no_register(Op::MemRead { mem, map, index }, grant)
            }
            Op::MemWrite {
                mem,
                map,
                index,
                value,
            } => self.ask_location_write(mem, map, index, value),
            Op::MemCheck {
                mem,
                map,
                index,
                value,
            } => self.ask_location_check(mem, map, index, value),
            _ => unreachable!(),
        }
    }

    fn ask_location_write(&self, mem: u32, map: Option<u32>, index: u64, value: u64) -> Asked
        requires mem { mem < length self.now.chip.mems }
        requires map { IsMapIn (length self.now.layout.maps) map }
        ensures { IsAskedOf self.now (op.MemWrite mem map index value) result }
    {
        let (map, way) = self.through(Item::Mem(mem), map, true);
        let there = self.at_location(mem, index, self.writable(mem, way));
        let grant = self.fitting(Item::Mem(mem), value, there);
        let op = Op::MemWrite {
            mem,
            map,
            index,
            value,
        };
        Asked::of_no_register(op, grant)
    }

    fn ask_location_check(&self, mem: u32, map: Option<u32>, index: u64, value: u64) -> Asked
        requires mem { mem < length self.now.chip.mems }
        requires map { IsMapIn (length self.now.layout.maps) map }
        ensures { IsAskedOf self.now (op.MemCheck mem map index value) result }
    {
        let (map, way) = self.through(Item::Mem(mem), map, false);
        let there = self.at_location(mem, index, way);
        let grant = self.fitting(Item::Mem(mem), value, there);
        let op = Op::MemCheck {
            mem,
            map,
            index,
            value,
        };
        Asked::of_no_register(op, grant)
    }

    /// The map that an event names, and the place of the item with the right of the direction.
    pub(crate) fn through(&self, item: Item, map: Option<u32>, write: bool) -> (Option<u32>, Grant)
        requires item { HasItem self.now.chip item }
        requires map { IsMapIn (length self.now.layout.maps) map }
        ensures map { result.0 ≡ map_used self.now item map }
        ensures in_range { IsMapIn (length self.now.layout.maps) result.0 }
        ensures way { result.1 ≡ way self.now item map write }
    {
        let place = self.place_of(item, map);
        (self.map_used(place, map), self.way(place, write))
    }

    // For another master's access, the map that an event names, and the place where a predictor watches.
    fn watched(&self, reg: u32, map: Option<u32>, write: bool) -> (Option<u32>, Grant)
        requires reg { reg < length self.now.chip.regs }
        requires map { IsMapIn (length self.now.layout.maps) map }
        ensures map { result.0 ≡ map_used self.now (item.Reg reg) map }
        ensures in_range { IsMapIn (length self.now.layout.maps) result.0 }
        ensures way { result.1 ≡ watched_way self.now reg map write }
    {
        let place = self.place_of(Item::Reg(reg), map);
        (self.map_used(place, map), self.watched_way(place, write))
    }
}
