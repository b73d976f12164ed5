//! The places of each item.
ghost use Rattle.std.specs.Prelude.{◌≡◌, ◌+◌, ◌*◌, ◌<◌, ◌≤◌, ◌^◌, ◌++◌, ◌∷◌, ◌&&◌, ℕ, [], length};
ghost use Rattle.std.specs.Prelude.{OnOk, position, slice_index_or, Some, if◌then◌else◌};
ghost use Rattle.rl_map.specs.Layout.{same_item, is_in};
ghost use Rattle.rl_map.specs.Links.{number_of_item, AreLinked};

use crate::find::is_in;
use crate::rows::PlaceRow;
use rl_model::Item;
use std::alloc::{AllocError, Global};

/// For each item the last of its places, and for each place the one before it with the same item.
///
/// Each is kept as the number above the place, and as 0 where there is none.
#[derive(Drop)]
pub(crate) struct ItemLinks {
    pub(crate) lasts: Vec<u32>,
    pub(crate) before: Vec<u32>,
}

/// Where an item is among all items.
fn number_of_item(item: Item) -> usize
    ensures number { result ≡ number_of_item item }
    ensures small { result < 2 ^ 34 }
{
    match item {
        Item::Reg(reg) => 2 * reg as usize,
        Item::Mem(mem) => 2 * mem as usize + 1,
    }
}

/// A place that fits, or else the one that was found before.
fn place_or(fits: bool, place: u32, found: Option<u32>) -> Option<u32>
    ensures { result ≡ (if fits then Some place else found) }
{
    if fits { Some(place) } else { found }
}

/// Makes room for `len` numbers.
fn grow(numbers: &mut Vec<u32>, len: usize) -> Result<(), AllocError>
    ensures long { OnOk result (len ≤ length numbers.new.items) }
    ensures kept { OnOk result ((k : ℕ) → slice_index_or numbers.new.items k 0 ≡ slice_index_or numbers.old.items k 0) }
{
    while numbers.len() < len {
        numbers.push(0)?;
    }
    Ok(())
}

impl ItemLinks {
    pub(crate) fn new(alloc: Global) -> ItemLinks
        ensures { AreLinked [] result.lasts.items result.before.items }
    {
        ItemLinks {
            lasts: Vec::new(alloc),
            before: Vec::new(alloc),
        }
    }

    /// The number above the last place of an item, and 0 if it has none.
    pub(crate) fn last(&self, item: Item) -> u32
        ensures { result ≡ slice_index_or self.now.lasts.items (number_of_item item) 0 }
    {
        match self.lasts.get(number_of_item(item)) {
            Some(last) => *last,
            None => 0,
        }
    }

    /// Adds the next place.
    pub(crate) fn push(&mut self, places: &[PlaceRow], row: &PlaceRow) -> Result<(), AllocError>
        requires linked { AreLinked places.now self.old.lasts.items self.old.before.items }
        requires few { length places.now < 4096 }
        ensures { OnOk result (AreLinked (places.now ++ row.now ∷ []) self.new.lasts.items self.new.before.items) }
    {
        let number = number_of_item(row.item);
        grow(&mut self.lasts, number + 1)?;
        self.before.push(self.lasts[number])?;
        self.lasts[number] = places.len() as u32 + 1;
        Ok(())
    }

    /// The first place of an item, or its place in the given map.
    pub(crate) fn place_of(&self, places: &[PlaceRow], item: Item, map: Option<u32>) -> Option<u32>
        requires linked { AreLinked places.now self.now.lasts.items self.now.before.items }
        requires few { length places.now ≤ 4096 }
        ensures { result ≡ position (λ p. same_item p.item item && is_in map p.map) places.now }
    {
        let mut found = None;
        let mut above = self.last(item);
        while above != 0 {
            let place = above - 1;
            let fits = is_in(map, places[place as usize].map);
            found = place_or(fits, place, found);
            above = self.before[place as usize];
        }
        found
    }
}
