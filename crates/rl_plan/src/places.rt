// The places at which the flaws of an item are told.
ghost use Rattle.std.specs.Prelude.{◌≡◌, ◌++◌, ◌+◌, ◌^◌, ◌<◌, All, IfOk, OnOk, map};
ghost use Rattle.std.specs.List.{range_with_len};
ghost use Rattle.rl_model.specs.Chip.{HasItem};
ghost use Rattle.rl_grade.specs.Prelude.{IsPlaceIn};
ghost use Rattle.rl_plan.specs.Needed.{all_places, own_fields, places_of};

use crate::lines::items_of;
use rl_grade::Place;
use rl_model::{Chip, Item};
use std::alloc::{AllocError, Global};

// Appends so many fields from one on.
fn push_fields(places: &mut Vec<Place>, first: u32, count: u32) -> Result<(), AllocError>
    requires { first + count < 2 ^ 32 }
    ensures { OnOk result (places.new.items ≡ places.old.items ++ map Place.OfField (range_with_len first count)) }
{
    for field in 0..count {
        places.push(Place::OfField(first + field))?;
    }
    Ok(())
}

// Appends the fields of a register; a memory has none.
fn push_own_fields(places: &mut Vec<Place>, chip: &Chip, item: Item) -> Result<(), AllocError>
    requires { HasItem chip.now item }
    ensures { OnOk result (places.new.items ≡ places.old.items ++ own_fields chip.now item) }
{
    match item {
        Item::Reg(reg) => {
            let first = chip.first_field(reg);
            push_fields(places, first, chip.field_count(reg))
        }
        Item::Mem(_) => Ok(()),
    }
}

// The item, and of a register its fields.
pub(crate) fn places_of(alloc: Global, chip: &Chip, item: Item) -> Result<Vec<Place>, AllocError>
    requires { HasItem chip.now item }
    ensures places { IfOk result (λ places. places.items ≡ places_of chip.now item) }
    ensures each { IfOk result (λ places. All (IsPlaceIn chip.now) places.items) }
{
    // Asked for its size, the chip is known to be sound.
    let _fields = chip.fields();
    let mut places = Vec::new(alloc);
    places.push(Place::OfItem(item))?;
    push_own_fields(&mut places, chip, item)?;
    Ok(places)
}

// The items of a chip, each with its fields.
pub(crate) fn all_places(alloc: Global, chip: &Chip) -> Result<Vec<Place>, AllocError>
    ensures places { IfOk result (λ places. places.items ≡ all_places chip.now) }
    ensures each { IfOk result (λ places. All (IsPlaceIn chip.now) places.items) }
{
    let items = items_of(alloc, chip)?;
    let mut places = Vec::new(alloc);
    for item in &items {
        let own = places_of(alloc, chip, *item)?;
        places.extend_from_slice(&own)?;
    }
    Ok(places)
}
