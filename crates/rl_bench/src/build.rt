//! The masks of the registers, made of the tables.
ghost use Rattle.std.specs.Prelude.{◌<◌, length, get_or, IfOk};
ghost use Rattle.rl_bus.specs.Setup.{policy_at, names_bit, no_stuck};
ghost use Rattle.rl_policy.specs.Masks.{HasBits, AreEffectsOf};
ghost use Rattle.rl_bench.specs.Shape.{IsShapeOf};
ghost use Rattle.rl_bench.specs.Board.{IsSetup, AreShapesOf};
ghost use Rattle.rl_bench.specs.Tables.{setup_held};

use crate::find::fields_of;
use crate::seat::seat_in;
use crate::shape::Shape;
use crate::tables::Tables;
use rl_policy::Effects;
use rl_policy::word::{repeated, window};
use std::alloc::{AllocError, Global};

/// What accesses do to a register.
pub fn effects_of(tables: &Tables, reg: u32) -> Effects
    requires { IsSetup (setup_held tables.now) }
    ensures { AreEffectsOf (policy_at (setup_held tables.now) reg) result }
{
    let mut effects = Effects::none();
    let own = fields_of(&tables.fields, reg);
    for k in own.first..own.end {
        let row = tables.fields[k];
        effects = effects.with_field(seat_in(&row, reg), tables.policy_of(k as u32));
    }
    effects
}

// A stuck bit, where it is one of this register.
fn stuck_seat(tables: &Tables, reg: u32, k: usize) -> u64
    requires setup { IsSetup (setup_held tables.now) }
    requires k { k < length (setup_held tables.now).flaws.stuck }
    ensures { HasBits result
        (names_bit (setup_held tables.now) (get_or (setup_held tables.now).flaws.stuck k no_stuck) reg) }
{
    let row = tables.stuck[k];
    let field = tables.fields[row.field as usize];
    if field.reg == reg {
        window(field.lsb + row.bit, 1)
    } else {
        0
    }
}

/// The masks of a register.
pub fn shape_of(tables: &Tables, reg: u32) -> Shape
    requires { IsSetup (setup_held tables.now) }
    ensures { IsShapeOf (record { setup = setup_held tables.now; reg = reg }) result }
{
    let mut stuck = 0u64;
    let mut values = 0u64;
    for k in 0..tables.stuck.len() {
        let new = stuck_seat(tables, reg, k) & !stuck;
        let value = tables.stuck[k].value;
        stuck |= new;
        values |= new & repeated(value);
    }
    Shape {
        effects: effects_of(tables, reg),
        stuck,
        values,
    }
}

/// The masks of all registers.
pub fn shapes_of(alloc: Global, tables: &Tables) -> Result<Vec<Shape>, AllocError>
    requires { IsSetup (setup_held tables.now) }
    ensures { IfOk result (λ shapes. AreShapesOf (setup_held tables.now) shapes.items) }
{
    let mut shapes = Vec::new(alloc);
    for reg in 0..tables.regs.len() {
        shapes.push(shape_of(tables, reg as u32))?;
    }
    Ok(shapes)
}
