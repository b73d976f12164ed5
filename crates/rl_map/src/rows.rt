//! What a layout keeps of its maps, ports and places.
ghost use Rattle.std.specs.Prelude.{◌≡◌};
ghost use Rattle.rl_map.specs.Layout.{has_right, location_of};

use crate::path::Path;
use crate::seat::Location;
use bitflags::Flags;
use rl_bus::AdapterKind;
use rl_model::{Item, Name, Rights};

/// A map: its path, from the map itself up to the root, and its port.
#[derive(Drop)]
pub(crate) struct MapRow {
    pub(crate) name: Name,
    pub(crate) path: Path,
    pub(crate) port: u32,
}

/// A port: the root map, where its addresses begin, its width, and the adapter kind.
#[derive(Clone, Copy)]
pub(crate) struct PortRow {
    pub(crate) map: u32,
    pub(crate) base: u64,
    pub(crate) bytes: u32,
    /// The place of the kind among those that the layout was built with.
    pub(crate) adapter: u32,
    pub(crate) kind: AdapterKind,
    pub(crate) explicit: bool,
}

/// A place: where an item is, its bytes and, for a memory, its number of locations.
#[derive(Clone, Copy)]
pub(crate) struct PlaceRow {
    pub(crate) map: u32,
    pub(crate) item: Item,
    pub(crate) offset: u64,
    pub(crate) rights: Rights,
    pub(crate) bytes: u64,
    pub(crate) size: u32,
    pub(crate) port: u32,
    pub(crate) fifo: bool,
}

/// What is at an address of a port for one direction.
#[derive(Clone, Copy, Debug, PartialEq, Eq)]
pub struct Here {
    /// The number of the place.
    pub place: u32,
    /// The location of the place's item; 0 for a register.
    pub index: u32,
    /// How many of its words are at the address: more than one only where a map on the path is a FIFO.
    pub count: u32,
}

/// A location of a place's item, in the place's map.
pub(crate) fn location(row: &PlaceRow, index: u32) -> Location
    ensures { result ≡ location_of row.now index }
{
    Location {
        bytes: row.bytes,
        offset: row.offset,
        index,
    }
}

/// Whether the bus may write, or read, where it has these rights.
pub fn has_right(rights: Rights, write: bool) -> bool
    ensures { result ≡ has_right rights write }
{
    if write {
        rights.contains(Rights::WRITE)
    } else {
        rights.contains(Rights::READ)
    }
}
