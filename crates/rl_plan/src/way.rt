// The places of an item.
ghost use Rattle.std.specs.Prelude.{◌≡◌, ◌<◌, length, IfOk};
ghost use Rattle.rl_map.specs.Layout.{same_item};
ghost use Rattle.rl_plan.specs.Plan.{way_at, ways_of};

use rl_map::{Layout, has_right};
use rl_model::Item;
use std::alloc::{AllocError, Global};

/// A place of an item: its map, and what the bus may do there.
#[derive(Clone, Copy, Debug, PartialEq, Eq)]
pub struct Way {
    /// The number of the map.
    pub map: u32,
    /// Whether the bus may read.
    pub reads: bool,
    /// Whether the bus may write.
    pub writes: bool,
}

fn is_same(a: Item, b: Item) -> bool
    ensures { result ≡ same_item a b }
{
    match (a, b) {
        (Item::Reg(a), Item::Reg(b)) => a == b,
        (Item::Mem(a), Item::Mem(b)) => a == b,
        _ => false,
    }
}

fn way_at(layout: &Layout, place: u32) -> Way
    requires { place < length layout.now.places }
    ensures { result ≡ way_at layout.now place }
{
    let rights = layout.rights(place);
    Way {
        map: layout.map_of(place),
        reads: has_right(rights, false),
        writes: has_right(rights, true),
    }
}

/// The places of an item, in the order of the description.
pub fn ways_of(alloc: Global, layout: &Layout, item: Item) -> Result<Vec<Way>, AllocError>
    ensures { IfOk result (λ ways. ways.items ≡ ways_of layout.now item (length layout.now.places)) }
{
    let mut ways = Vec::new(alloc);
    for place in 0..layout.places() {
        if is_same(layout.item(place), item) {
            ways.push(way_at(layout, place))?;
        }
    }
    Ok(ways)
}
