// What is done at places of an item, one by one.
ghost use Rattle.std.specs.Prelude.{◌≡◌, ◌++◌, filter_map, OnOk};
ghost use Rattle.rl_plan.specs.Plan.{is_gone, is_through, only_if, some_op, touch_op, visit_op};

use crate::target::Target;
use crate::way::Way;
use rl_access::Op;
use std::alloc::AllocError;

// What is done at each place that lets it through.
#[derive(Clone, Copy)]
pub(crate) enum Visit {
    // An access to the register, at places where its steps don't go.
    Touch { target: Target, seen: bool },
    // A write of a location.
    Fill { mem: u32, index: u64, value: u64 },
    // A check of a location.
    Check { mem: u32, index: u64, value: u64 },
    // A read of a location.
    Read { mem: u32, index: u64 },
}

fn is_through(way: Option<Way>, map: u32) -> bool
    ensures { result ≡ is_through way map }
{
    match way {
        Some(way) => way.map == map,
        None => false,
    }
}

// Whether the steps for a register go by this place.
fn is_gone(target: Target, seen: bool, way: Way) -> bool
    ensures { result ≡ is_gone target seen way }
{
    seen && (is_through(target.reader, way.map) || is_through(target.writer, way.map))
}

fn touch_op(reg: u32, way: Way) -> Op
    ensures { result ≡ touch_op reg way }
{
    let map = Some(way.map);
    if way.reads {
        Op::Check { reg, map }
    } else {
        Op::Write { reg, map, value: 0 }
    }
}

// The operation where a condition holds.
fn only_if(holds: bool, op: Op) -> Option<Op>
    ensures { result ≡ only_if holds op }
{
    if holds { Some(op) } else { None }
}

impl Visit {
    // The operation at a place.
    fn op_at(self, way: Way) -> Option<Op>
        ensures { result ≡ visit_op self way }
    {
        let map = Some(way.map);
        match self {
            Visit::Touch { target, seen } => only_if(
                !is_gone(target, seen, way),
                touch_op(target.reg, way),
            ),
            Visit::Fill { mem, index, value } => only_if(
                way.writes,
                Op::MemWrite {
                    mem,
                    map,
                    index,
                    value,
                },
            ),
            Visit::Check { mem, index, value } => only_if(
                way.reads,
                Op::MemCheck {
                    mem,
                    map,
                    index,
                    value,
                },
            ),
            Visit::Read { mem, index } => only_if(way.reads, Op::MemRead { mem, map, index }),
        }
    }
}

// Appends the operation, if there is one.
pub(crate) fn push_some(ops: &mut Vec<Op>, op: Option<Op>) -> Result<(), AllocError>
    ensures { OnOk result (ops.new.items ≡ ops.old.items ++ some_op op) }
{
    if let Some(op) = op {
        ops.push(op)?;
    }
    Ok(())
}

// Appends what is done at each place.
pub(crate) fn push_visits(ops: &mut Vec<Op>, ways: &[Way], visit: Visit) -> Result<(), AllocError>
    ensures { OnOk result (ops.new.items ≡ ops.old.items ++ filter_map (visit_op visit) ways.now) }
{
    for way in ways {
        push_some(ops, visit.op_at(*way))?;
    }
    Ok(())
}
