//! Building a layout of its parts.
ghost use Rattle.std.specs.Prelude.{◌≡◌, ◌≢◌, ◌<◌, ◌^◌, [], Some, None, length, IfOk, IfErr, OnOk};
ghost use Rattle.rl_map.specs.Layout.{IsSound};
ghost use Rattle.rl_map.specs.Maps.{IsBuiltWith, layout_of};
ghost use Rattle.rl_map.specs.Faults.{Passes, layout_fault};
ghost use Rattle.rl_map.specs.Clashes.{first_fault};
ghost use Rattle.rl_map.specs.Prelude.{HasTables, ArePlaced};
ghost use Rattle.rl_map.specs.Ordered.{AreOrdered};

use crate::fault::{MapCause, MapFault, refusal, row_at};
use crate::layout::Layout;
use crate::maps::add_maps;
use crate::parts::{MapNode, PlacePart};
use crate::places::{Placing, add_places};
use crate::rows::{MapRow, PortRow};
use crate::shared::{Shared, first_shared, sort_rows};
use rl_bus::AdapterKind;
use rl_model::{Array, Chip};
use std::alloc::Global;
use std::rc::Rc;

/// The refusal by a shared address, or else the other one.
fn first_fault(shared: Option<Shared>, refused: Option<MapFault>) -> Option<MapFault>
    ensures { result ≡ first_fault shared refused }
{
    match shared {
        Some(shared) => Some(refusal(
            row_at(Array::Place, shared.place),
            MapCause::SharedAddress {
                address: shared.address,
                other: shared.other,
            },
        )),
        None => refused,
    }
}

/// Adds all places with their rows in order, or names the first that is refused.
fn place_all(
    chip: &Chip,
    maps: &[MapRow],
    ports: &[PortRow],
    placing: &mut Placing,
    parts: &[PlacePart],
) -> Result<(), MapFault>
    requires tables { HasTables maps.now ports.now }
    requires placed { ArePlaced chip.now maps.now ports.now placing.old }
    requires places { placing.old.places.items ≡ [] }
    requires rows { placing.old.rows.items ≡ [] }
    ensures ordered { OnOk result (AreOrdered chip.now maps.now ports.now parts.now placing.new None) }
    ensures refused { IfErr result
        (λ e. e ≢ MapFault.Memory → AreOrdered chip.now maps.now ports.now parts.now placing.new (Some e)) }
{
    let refused = add_places(chip, maps, ports, placing, parts)?;
    sort_rows(&mut placing.rows)?;
    let shared = first_shared(&placing.places, &placing.rows);
    match first_fault(shared, refused) {
        Some(fault) => Err(fault),
        None => Ok(()),
    }
}

impl Layout {
    /// Builds the layout of these maps and places, in description order, over a chip.
    ///
    /// `kinds` are those of the adapters at hand; a root's adapter is the first kind of its name.
    ///
    /// # Errors
    ///
    /// `Bad` is the first condition that fails: maps come before places, each in description order, and the
    /// conditions of a row in the order of its checks, for a place a shared address last. `Memory` is an
    /// allocation that failed.
    ///
    /// # Examples
    ///
    /// A register of 3 bytes is at 0x0 of a little-endian root of 2 bytes.
    ///
    /// ```text
    /// let layout = Layout::build(alloc, &chip, &maps, &places, &kinds)?;
    /// layout.words(0) == 2
    /// layout.word(0, 0, 1) == Word { order: 1, address: 0x2, lanes: 0b01, bytes: [2, 0, 0, 0, 0, 0, 0, 0] }
    /// layout.find(0, 0x2, false) == Some(Here { place: 0, index: 0, count: 1 })
    /// layout.find(0, 0x4, false) == None
    /// ```
    pub fn build(
        alloc: Global,
        chip: &Chip,
        maps: &[MapNode],
        places: &[PlacePart],
        kinds: &[AdapterKind],
    ) -> Result<Layout, MapFault>
        requires { length kinds.now < 2 ^ 32 }
        ensures exact { Passes result (layout_fault chip.now maps.now places.now kinds.now)
            (λ l. l ≡ layout_of chip.now maps.now places.now kinds.now) }
        ensures sound { IfOk result IsSound }
        ensures kinds { IfOk result (λ l. l.kinds ≡ kinds.now) }
        ensures built_with { IfOk result (λ l. IsBuiltWith l chip.now) }
    {
        let (map_rows, ports) = add_maps(alloc, maps, kinds)?;
        let mut placing = Placing::new(alloc);
        place_all(chip, &map_rows, &ports, &mut placing, places)?;
        let kept_kinds = Vec::from_slice(alloc, kinds)?;
        let Placing {
            places: place_rows,
            links,
            rows,
            words,
        } = placing;
        Ok(Layout {
            maps: map_rows,
            places: place_rows,
            ports,
            kinds: kept_kinds,
            rows: Rc::new(alloc, rows)?,
            words,
            links,
        })
    }
}
