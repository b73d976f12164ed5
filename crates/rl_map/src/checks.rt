//! The conditions of a place but that on shared addresses.
ghost use Rattle.std.specs.Prelude.{◌≡◌, ◌+◌, ◌<◌, ◌≤◌, ℕ, Some, None, IfOk, OnOk, IfSome, length};
ghost use Rattle.std.specs.Prelude.{false, option_map, slice_get};
ghost use Rattle.rl_model.specs.Chip.{HasItem};
ghost use Rattle.rl_map.specs.Level.{IsPath};
ghost use Rattle.rl_map.specs.Faults.{is_placed, word_count};
ghost use Rattle.rl_map.specs.Links.{AreLinked};
ghost use Rattle.rl_map.specs.Maps.{item_at, place_row};
ghost use Rattle.rl_map.specs.Steps.{Tells, there_checks, fifo_checks, word_checks, own_checks, place_of_part};
ghost use Rattle.rl_map.specs.Building.{HasTables, IsPlacedIn, IsPlaceRow, IsSeated, HasRoom, placed_at};

use crate::address::{is_place_above, is_place_unaligned};
use crate::fault::MapCause;
use crate::find::map_number;
use crate::limits::{MOST_PLACES, MOST_WORDS};
use crate::links::ItemLinks;
use crate::parts::PlacePart;
use crate::path::Level;
use crate::rows::{MapRow, PlaceRow, PortRow, location};
use rl_model::{Chip, Item};

/// The register or memory with a path.
fn item_at(chip: &Chip, path: &[u8]) -> Option<Item>
    ensures there { IfSome result (HasItem chip.now) }
    ensures exact { result ≡ item_at chip.now path.now }
{
    match chip.reg_by_path(path) {
        Some(reg) => Some(Item::Reg(reg)),
        None => match chip.mem_by_path(path) {
            Some(mem) => Some(Item::Mem(mem)),
            None => None,
        },
    }
}

/// The locations of an item: one, if it is a register.
fn size_of(chip: &Chip, item: Item) -> u32
    requires { HasItem chip.now item }
    ensures reg { (r : ℕ) → item ≡ Item.Reg r → result ≡ 1 }
    ensures mem { (m : ℕ) → item ≡ Item.Mem m → option_map (λ m. m.size) (slice_get chip.now.mems m) ≡ Some result }
    ensures some { 1 ≤ result }
    ensures most { result ≤ 65536 }
{
    match item {
        Item::Reg(_) => 1,
        Item::Mem(mem) => chip.size(mem),
    }
}

/// Whether the map and the item of a row have a place already.
fn is_placed(places: &[PlaceRow], links: &ItemLinks, row: &PlaceRow) -> bool
    requires linked { AreLinked places.now links.now.lasts.items links.now.before.items }
    requires few { length places.now ≤ 4096 }
    ensures { result ≡ is_placed places.now row.now }
{
    links.place_of(places, row.item, Some(row.map)).is_some()
}

/// The row of a place, if its map and its item are there.
fn place_row(chip: &Chip, maps: &[MapRow], part: &PlacePart) -> Result<PlaceRow, MapCause>
    requires { length maps.now ≤ 64 }
    ensures placed { IfOk result (IsPlacedIn chip.now maps.now) }
    ensures row { IfOk result (λ row. row ≡ place_row chip.now maps.now part.now) }
    ensures fault { Tells result (there_checks chip.now maps.now part.now) }
{
    match map_number(maps, part.map.text()) {
        None => Err(MapCause::NoSuchMap),
        Some(number) => match item_at(chip, part.item.text()) {
            None => Err(MapCause::NoSuchItem),
            Some(item) => {
                let map = &maps[number];
                Ok(PlaceRow {
                    map: number as u32,
                    item,
                    offset: part.offset,
                    rights: part.rights,
                    bytes: u64::from(chip.bytes(item)),
                    size: size_of(chip, item),
                    port: map.port,
                    fifo: map.path.has_fifo(),
                })
            }
        },
    }
}

/// Refuses a memory on a FIFO path.
fn check_fifo(row: &PlaceRow) -> Result<(), MapCause>
    ensures mem { OnOk result ((m : ℕ) → row.now.item ≡ Item.Mem m → row.now.fifo ≡ false) }
    ensures fault { Tells result (fifo_checks row.now) }
{
    match row.item {
        Item::Reg(_) => Ok(()),
        Item::Mem(_) => {
            if row.fifo {
                Err(MapCause::MemInFifo)
            } else {
                Ok(())
            }
        }
    }
}

/// Refuses words past the limit, addresses that the port's adapter doesn't take, and those that aren't
/// aligned.
fn check_words(row: &PlaceRow, path: &[Level], port: &PortRow, words: usize) -> Result<(), MapCause>
    requires path { IsPath path.now }
    requires size { row.now.bytes ≤ 8 }
    requires some { 1 ≤ row.now.size }
    requires locations { row.now.size ≤ 65536 }
    requires width { 0 < port.now.bytes }
    requires words { words ≤ 1048576 }
    ensures room { OnOk result (words + word_count (placed_at row.now path.now port.now) ≤ 1048576) }
    ensures seated { OnOk result (IsSeated (placed_at row.now path.now port.now)) }
    ensures fault { Tells result (word_checks words (placed_at row.now path.now port.now)) }
{
    let more = u64::from(row.size) * u64::from(location(row, 0).count(path));
    if words as u64 + more > MOST_WORDS {
        return Err(MapCause::TooMany);
    }
    if is_place_above(row, path, port) {
        return Err(MapCause::AddressOverflow);
    }
    if is_place_unaligned(row, path, port) {
        return Err(MapCause::Unaligned);
    }
    Ok(())
}

/// The row of a place that meets each condition but that on shared addresses.
pub(crate) fn checked_place(
    chip: &Chip,
    maps: &[MapRow],
    ports: &[PortRow],
    places: &[PlaceRow],
    links: &ItemLinks,
    words: usize,
    part: &PlacePart,
) -> Result<PlaceRow, MapCause>
    requires tables { HasTables maps.now ports.now }
    requires linked { AreLinked places.now links.now.lasts.items links.now.before.items }
    requires words { words ≤ 1048576 }
    ensures few { OnOk result (length places.now < 4096) }
    ensures once { IfOk result (λ row. is_placed places.now row ≡ false) }
    ensures row { IfOk result (IsPlaceRow chip.now maps.now ports.now) }
    ensures room { IfOk result (HasRoom maps.now ports.now words) }
    ensures exact { IfOk result (λ row. row ≡ place_row chip.now maps.now part.now) }
    ensures fault { Tells result
        (own_checks chip.now maps.now places.now words part.now (place_of_part chip.now maps.now ports.now part.now)) }
{
    if places.len() >= MOST_PLACES {
        return Err(MapCause::TooMany);
    }
    let row = place_row(chip, maps, part)?;
    if is_placed(places, links, &row) {
        return Err(MapCause::PlacedTwice);
    }
    check_fifo(&row)?;
    let map = &maps[row.map as usize];
    let port = &ports[row.port as usize];
    check_words(&row, map.path.levels(), port, words)?;
    Ok(row)
}
