// The places of a chip at which flaws are told.
ghost use Rattle.std.specs.Prelude.{◌≡◌, ◌++◌, ◌+◌, ◌^◌, ◌<◌, length, map, All, OnOk, IfOk};
ghost use Rattle.std.specs.List.{range_with_len};
ghost use Rattle.rl_grade.specs.declared.place.Place.TheVariants.{OfField};
ghost use Rattle.rl_grade_report.specs.Prelude.{IsPlaceIn, mems_places, places_of, reg_places, regs_places};

use rl_grade::Place;
use rl_model::{Chip, Item};
use std::alloc::{AllocError, Global};

// Appends a register and its fields.
fn push_reg(places: &mut Vec<Place>, chip: &Chip, reg: u32) -> Result<(), AllocError>
    requires { reg < length chip.now.regs }
    ensures { OnOk result (places.new.items ≡ places.old.items ++ reg_places chip.now reg) }
{
    places.push(Place::OfItem(Item::Reg(reg)))?;
    let first = chip.first_field(reg);
    let count = chip.field_count(reg);
    push_fields(places, first, count)
}

// Appends so many fields from one on.
fn push_fields(places: &mut Vec<Place>, first: u32, count: u32) -> Result<(), AllocError>
    requires { first + count < 2 ^ 32 }
    ensures { OnOk result (places.new.items ≡ places.old.items ++ map OfField (range_with_len first count)) }
{
    for field in 0..count {
        places.push(Place::OfField(first + field))?;
    }
    Ok(())
}

fn push_regs(places: &mut Vec<Place>, chip: &Chip) -> Result<(), AllocError>
    ensures { OnOk result (places.new.items ≡ places.old.items ++ regs_places chip.now (length chip.now.regs)) }
{
    for reg in 0..chip.regs() {
        push_reg(places, chip, reg)?;
    }
    Ok(())
}

fn push_mems(places: &mut Vec<Place>, mems: u32) -> Result<(), AllocError>
    ensures { OnOk result (places.new.items ≡ places.old.items ++ mems_places mems) }
{
    for mem in 0..mems {
        places.push(Place::OfItem(Item::Mem(mem)))?;
    }
    Ok(())
}

/// The registers, each with its fields after it, the memories, and the session.
pub(crate) fn places_of(alloc: Global, chip: &Chip) -> Result<Vec<Place>, AllocError>
    ensures places { IfOk result (λ places. places.items ≡ places_of chip.now) }
    ensures each { IfOk result (λ places. All (IsPlaceIn chip.now) places.items) }
{
    let mut places = Vec::new(alloc);
    push_regs(&mut places, chip)?;
    push_mems(&mut places, chip.mems())?;
    places.push(Place::OfSession)?;
    Ok(places)
}
