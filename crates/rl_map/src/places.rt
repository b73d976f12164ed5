//! The places of a layout, and the rows of their words.
ghost use Rattle.std.specs.Prelude.{◌≡◌, ◌++◌, ◌<◌, ◌≤◌, ◌∷◌, ℕ, List, [], Some, None, IfOk, OnOk, length, map};
ghost use Rattle.rl_model.specs.Rows.{ChipData};
ghost use Rattle.rl_map.specs.declared.rows.MapRow.{MapRow};
ghost use Rattle.rl_map.specs.declared.rows.PortRow.{PortRow};
ghost use Rattle.rl_map.specs.declared.fault.MapFault.{MapFault};
ghost use Rattle.rl_map.specs.Prelude.{IsPath, AddressesFit, cell_of, word_row, location_of, AreStraight, AreLocations};
ghost use Rattle.rl_map.specs.Prelude.{HasTables, rows_of, path_in, port_for, place_row, own_fault, own_faults};
ghost use Rattle.rl_map.specs.Prelude.{accepted, ArePlaced};

use crate::checks::checked_place;
use crate::fault::{MapFault, refusal, row_at};
use crate::kept::PlaceWords;
use crate::links::ItemLinks;
use crate::parts::PlacePart;
use crate::rows::{MapRow, PlaceRow, PortRow, has_right, location};
use crate::word::Word;
use rl_bus::{Cell, Lanes, WordRow};
use rl_model::{Array, Chip, Item};
use std::alloc::{AllocError, Global};

fn cell_of(item: Item, index: u32) -> Cell
    ensures { result ≡ cell_of item index }
{
    match item {
        Item::Reg(reg) => Cell::Reg { reg },
        Item::Mem(mem) => Cell::Loc { mem, index },
    }
}

/// The row of a word of a place.
fn word_row(place: &PlaceRow, number: u32, index: u32, word: &Word) -> WordRow
    ensures { result ≡ word_row place.now number index word.now }
{
    WordRow {
        address: word.address,
        cell: cell_of(place.item, index),
        port: place.port,
        place: number,
        lanes: Lanes {
            enabled: word.lanes,
            bytes: word.bytes,
        },
        reads: has_right(place.rights, false),
        writes: has_right(place.rights, true),
    }
}

/// Adds the rows of words of a location.
fn push_words(
    rows: &mut Vec<WordRow>,
    place: &PlaceRow,
    number: u32,
    index: u32,
    words: &[Word],
) -> Result<(), AllocError>
    ensures { OnOk result (rows.new.items ≡ rows.old.items ++ map (word_row place.now number index) words.now) }
{
    for word in words {
        rows.push(word_row(place, number, index, word))?;
    }
    Ok(())
}

/// Adds the rows of all locations of a place, and gives its words.
fn push_place(
    rows: &mut Vec<WordRow>,
    place: &PlaceRow,
    number: u32,
    maps: &[MapRow],
    ports: &[PortRow],
) -> Result<PlaceWords, AllocError>
    requires map { place.now.map < length maps.now }
    requires port { place.now.port < length ports.now }
    requires path { IsPath (path_in maps.now place.now) }
    requires some { 1 ≤ place.now.bytes }
    requires most { place.now.bytes ≤ 8 }
    requires locations { 1 ≤ place.now.size }
    requires fits { (index : ℕ) → index < place.now.size
        → AddressesFit (path_in maps.now place.now) (port_for ports.now place.now).base (location_of place.now index) }
    requires straight { AreStraight (path_in maps.now place.now) (location_of place.now 0) place.now.size }
    ensures rows { OnOk result (rows.new.items ≡ rows.old.items ++ rows_of maps.now ports.now number place.now) }
    ensures words { IfOk result
        (AreLocations (path_in maps.now place.now) (port_for ports.now place.now).base
        (location_of place.now 0) place.now.size) }
{
    let map = &maps[place.map as usize];
    let port = &ports[place.port as usize];
    let kept = PlaceWords::of(
        &location(place, 0),
        place.size,
        map.path.levels(),
        port.base,
    );
    for index in 0..place.size {
        let words = kept.location(index);
        push_words(rows, place, number, index, words.as_slice())?;
    }
    Ok(kept)
}

/// The places that were added so far, with their links, the rows of their words and what is kept of the words.
#[derive(Drop)]
pub(crate) struct Placing {
    pub(crate) places: Vec<PlaceRow>,
    pub(crate) links: ItemLinks,
    pub(crate) rows: Vec<WordRow>,
    pub(crate) words: Vec<PlaceWords>,
}

impl Placing {
    /// No place so far.
    pub(crate) fn new(alloc: Global) -> Placing
        ensures places { result.places.items ≡ [] }
        ensures rows { result.rows.items ≡ [] }
        ensures placed { (chip : ChipData) (maps : List MapRow) (ports : List PortRow)
            → ArePlaced chip maps ports result }
    {
        Placing {
            places: Vec::new(alloc),
            links: ItemLinks::new(alloc),
            rows: Vec::new(alloc),
            words: Vec::new(alloc),
        }
    }
}

/// Adds a place, its rows and its words, or says why it is refused.
fn add_place(
    chip: &Chip,
    maps: &[MapRow],
    ports: &[PortRow],
    placing: &mut Placing,
    part: &PlacePart,
) -> Result<Option<MapFault>, AllocError>
    requires tables { HasTables maps.now ports.now }
    requires placed { ArePlaced chip.now maps.now ports.now placing.old }
    ensures placed { OnOk result (ArePlaced chip.now maps.now ports.now placing.new) }
    ensures fault { IfOk result
        (λ refused. refused ≡ own_fault chip.now maps.now ports.now placing.old.places.items
        (length placing.old.rows.items) part.now) }
    ensures added { IfOk result
        (λ refused. refused ≡ None
        → placing.new.places.items ≡ placing.old.places.items ++ place_row chip.now maps.now part.now ∷ []) }
    ensures kept { IfOk result (λ refused. (fault : MapFault) → refused ≡ Some fault
        → placing.new.places.items ≡ placing.old.places.items) }
{
    let number = placing.places.len() as u32;
    let count = placing.rows.len();
    match checked_place(
        chip,
        maps,
        ports,
        &placing.places,
        &placing.links,
        count,
        part,
    ) {
        Err(cause) => Ok(Some(refusal(row_at(Array::Place, number), cause))),
        Ok(row) => {
            let words = push_place(&mut placing.rows, &row, number, maps, ports)?;
            placing.words.push(words)?;
            placing.links.push(&placing.places, &row)?;
            placing.places.push(row)?;
            Ok(None)
        }
    }
}

/// Adds all places up to the first that is refused.
pub(crate) fn add_places(
    chip: &Chip,
    maps: &[MapRow],
    ports: &[PortRow],
    placing: &mut Placing,
    parts: &[PlacePart],
) -> Result<Option<MapFault>, AllocError>
    requires tables { HasTables maps.now ports.now }
    requires placed { ArePlaced chip.now maps.now ports.now placing.old }
    ensures placed { OnOk result (ArePlaced chip.now maps.now ports.now placing.new) }
    ensures fault { IfOk result
        (λ refused. refused ≡ own_faults chip.now maps.now ports.now placing.old.places.items
        (length placing.old.rows.items) parts.now) }
    ensures accepted { OnOk result
        (placing.new.places.items ≡ placing.old.places.items ++ accepted chip.now maps.now ports.now
        placing.old.places.items (length placing.old.rows.items) parts.now) }
{
    for part in parts {
        let refused = add_place(chip, maps, ports, placing, part)?;
        if refused.is_some() {
            return Ok(refused);
        }
    }
    Ok(None)
}
