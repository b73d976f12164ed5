//! A layout, and what it answers.
ghost use Rattle.std.specs.Prelude.{◌≡◌, ◌+◌, ◌^◌, ◌<◌, ◌≤◌, ◌↔◌, ℕ, Some, None, IfSome};
ghost use Rattle.std.specs.Prelude.{IfOk, position, length, slice_get, All};
ghost use Rattle.rl_map.specs.Layout.{map_at, port_at, place_at, seat_at, words_of, has_right, found};
ghost use Rattle.rl_map.specs.Layout.{words_found, standing, place_of, map_named, IsLocation, IsHere, IsSound};
ghost use Rattle.rl_map.specs.Links.{IsLast};
ghost use Rattle.rl_map.specs.Partition.{IsWordOn};

use crate::find::{count_through, first_through, index_of, map_number, rows_at};
use crate::kept::PlaceWords;
use crate::links::ItemLinks;
use crate::rows::{Here, MapRow, PlaceRow, PortRow, location};
use crate::seat::Seat;
use crate::word::{Word, Words};
use rl_bus::{AdapterKind, WordRow};
use rl_model::{Item, Rights};
use std::alloc::AllocError;
use std::marker::Model;
use std::rc::Rc;

/// The address maps of a chip (`uvm_reg_map`, IEEE 1800.2-2017, 18.2), and where its registers and memories are in
/// them.
///
/// Maps, places and ports are numbered in description order. A port is a root map. A layout keeps the
/// kinds of adapters that it was built with, and the bytes and sizes of its items.
pub struct Layout {
    pub(crate) maps: Vec<MapRow>,
    pub(crate) places: Vec<PlaceRow>,
    pub(crate) ports: Vec<PortRow>,
    pub(crate) kinds: Vec<AdapterKind>,
    /// Shared with the devices that were made of the layout.
    pub(crate) rows: Rc<Vec<WordRow>>,
    /// The words of each place.
    pub(crate) words: Vec<PlaceWords>,
    pub(crate) links: ItemLinks,
}

// Written out, so that whoever owns a layout lets it go by one call, and not field by field.
impl Drop for Layout {
    fn drop(self) {
        let Layout {
            maps: _,
            places: _,
            ports: _,
            kinds: _,
            rows: _,
            words: _,
            links: _,
        } = self;
    }
}

impl Model for Layout {
    ghost use Rattle.rl_map.specs.Layout.{LayoutData, IsSound};
    ghost use Rattle.rl_map.specs.Locations.{AreKept};
    ghost use Rattle.rl_map.specs.Links.{AreLinked};

    ghost Value = { LayoutData };

    ghost view = { λ l. record {
      maps = l.maps.items;
      places = l.places.items;
      ports = l.ports.items;
      kinds = l.kinds.items;
      rows = l.rows.value.items;
    } };

    ghost invariant = { λ l.
        let held : LayoutData = record {
          maps = l.maps.items;
          places = l.places.items;
          ports = l.ports.items;
          kinds = l.kinds.items;
          rows = l.rows.value.items;
        } in
        IsSound held × AreKept held l.words.items × AreLinked l.places.items l.links.lasts.items l.links.before.items };
}

impl Layout {
    /// Where byte `byte` of location `index` of a place's item is; `index` is 0 for a register.
    pub fn seat(&self, place: u32, index: u32, byte: u32) -> Seat
        requires location { IsLocation self.now place index }
        requires byte { byte < (place_at self.now place).bytes }
        ensures { result ≡ seat_at self.now place index byte }
    {
        let row = &self.places[place as usize];
        let map = &self.maps[row.map as usize];
        let port = &self.ports[row.port as usize];
        location(row, index).seat(map.path.levels(), port.base, u64::from(byte))
    }

    /// How many words an access to a register or a location of the place has: 1 to 8.
    pub fn words(&self, place: u32) -> u32
        requires { place < length self.now.places }
        ensures count { (index : ℕ) → IsLocation self.now place index
            → result ≡ length (words_of self.now place index) }
        ensures some { 0 < result }
        ensures few { result ≤ 8 }
    {
        let kept = &self.words[place as usize];
        kept.count()
    }

    /// The `k`-th word of a location, counted from 0, in the order in which they are sent.
    pub fn word(&self, place: u32, index: u32, k: u32) -> Word
        requires location { IsLocation self.now place index }
        requires number { k < length (words_of self.now place index) }
        ensures word { slice_get (words_of self.now place index) k ≡ Some result }
        ensures on { IsWordOn (port_at self.now (place_at self.now place).port).kind
            (port_at self.now (place_at self.now place).port).bytes result }
    {
        let kept = &self.words[place as usize];
        kept.word(index, k)
    }

    /// What is at an address of a port for writes, or for reads; none where no place with the right of
    /// that direction has a word there.
    ///
    /// A read-only and a write-only place may share an address: a bus item is then of the place that has the
    /// right of its direction.
    pub fn find(&self, port: u32, address: u64, write: bool) -> Option<Here>
        requires { port < length self.now.ports }
        ensures found { result ≡ found self.now port address write }
        ensures here { IfSome result (IsHere self.now port address write) }
    {
        let group = rows_at(&self.rows, port, address);
        match first_through(group, write) {
            None => None,
            Some(row) => Some(Here {
                place: row.place,
                index: index_of(row.cell),
                count: count_through(group, write),
            }),
        }
    }

    /// The word that a beat of an address names: of those of one direction that are there, the one with
    /// this number in the order in which they are sent. There are several only where a map on the path is a FIFO.
    pub fn word_at(&self, port: u32, address: u64, beat: u32, write: bool) -> Word
        requires port { port < length self.now.ports }
        requires beat { beat < length (standing self.now port address write) }
        ensures word { slice_get (words_found self.now port address write) beat ≡ Some result }
    {
        match self.find(port, address, write) {
            Some(here) => self
                .location_words(here.place, here.index)
                .nth_at(address, beat),
            None => unreachable!(),
        }
    }

    /// How many places there are.
    pub fn places(&self) -> u32
        ensures count { result ≡ length self.now.places }
        ensures sound { IsSound self.now }
    {
        self.places.len() as u32
    }

    /// The first place of an item or, where a map is given, its place in that map; none where it has none.
    pub fn place_of(&self, item: Item, map: Option<u32>) -> Option<u32>
        ensures place { result ≡ place_of self.now item map }
        ensures there { IfSome result (λ p. (p < length self.now.places) × ((place_at self.now p).item ≡ item)) }
    {
        self.links.place_of(&self.places, item, map)
    }

    /// The number above the last place of an item, and 0 where it has none.
    pub fn end_of(&self, item: Item) -> u32
        ensures { IsLast self.now.places (length self.now.places) item result }
    {
        self.links.last(item)
    }

    /// The register or memory that is at a place.
    pub fn item(&self, place: u32) -> Item
        requires { place < length self.now.places }
        ensures { result ≡ (place_at self.now place).item }
    {
        self.places[place as usize].item
    }

    /// How many bytes the register, or a location of the memory, at a place has: 1 to 8.
    pub fn bytes(&self, place: u32) -> u32
        requires { place < length self.now.places }
        ensures bytes { result ≡ (place_at self.now place).bytes }
        ensures some { 0 < result }
        ensures few { result ≤ 8 }
    {
        self.places[place as usize].bytes as u32
    }

    /// The map that a place is in.
    pub fn map_of(&self, place: u32) -> u32
        requires { place < length self.now.places }
        ensures map { result ≡ (place_at self.now place).map }
        ensures in_range { result < length self.now.maps }
    {
        self.places[place as usize].map
    }

    /// What the bus may do with the item at a place: its rights in the map (`uvm_reg_map::add_reg` and `add_mem`,
    /// IEEE 1800.2-2017, 18.2).
    pub fn rights(&self, place: u32) -> Rights
        requires { place < length self.now.places }
        ensures { result ≡ (place_at self.now place).rights }
    {
        self.places[place as usize].rights
    }

    /// Whether a FIFO kind is on the path from the place's map up to the root.
    pub fn fifo(&self, place: u32) -> bool
        requires { place < length self.now.places }
        ensures { result ≡ (place_at self.now place).fifo }
    {
        self.places[place as usize].fifo
    }

    /// The port of a place: its root map.
    pub fn port_of(&self, place: u32) -> u32
        requires { place < length self.now.places }
        ensures port { result ≡ (place_at self.now place).port }
        ensures in_range { result < length self.now.ports }
    {
        self.places[place as usize].port
    }

    /// How many ports there are.
    pub fn ports(&self) -> u32
        ensures count { result ≡ length self.now.ports }
        ensures sound { IsSound self.now }
    {
        self.ports.len() as u32
    }

    /// The width of a port in bytes: 1, 2, 4 or 8.
    pub fn port_bytes(&self, port: u32) -> u32
        requires { port < length self.now.ports }
        ensures { result ≡ (port_at self.now port).bytes }
    {
        self.ports[port as usize].bytes
    }

    /// The root map of a port.
    pub fn port_map(&self, port: u32) -> u32
        requires { port < length self.now.ports }
        ensures map { result ≡ (port_at self.now port).map }
        ensures in_range { result < length self.now.maps }
    {
        self.ports[port as usize].map
    }

    /// Whether a predictor watches the port, in place of implicit prediction (`uvm_reg_map::set_auto_predict`,
    /// IEEE 1800.2-2017, 18.2).
    pub fn explicit(&self, port: u32) -> bool
        requires { port < length self.now.ports }
        ensures { result ≡ (port_at self.now port).explicit }
    {
        self.ports[port as usize].explicit
    }

    /// The number of the port's adapter kind among those that the layout was built with.
    pub fn adapter(&self, port: u32) -> u32
        requires { port < length self.now.ports }
        ensures adapter { result ≡ (port_at self.now port).adapter }
        ensures in_range { result < length self.now.kinds }
    {
        self.ports[port as usize].adapter
    }

    /// The kind of the port's adapter.
    pub fn port_kind(&self, port: u32) -> AdapterKind
        requires { port < length self.now.ports }
        ensures kind { result ≡ (port_at self.now port).kind }
        ensures among { slice_get self.now.kinds (port_at self.now port).adapter ≡ Some result }
    {
        self.ports[port as usize].kind
    }

    /// The map with this name, or none where no map has it.
    pub fn map_by_name(&self, name: &[u8]) -> Option<u32>
        ensures map { result ≡ map_named self.now name.now }
        ensures in_range { IfSome result (λ m. m < length self.now.maps) }
    {
        match map_number(&self.maps, name) {
            None => None,
            Some(number) => Some(number as u32),
        }
    }

    /// The name of a map.
    pub fn map_name(&self, map: u32) -> &[u8]
        requires { map < length self.now.maps }
        ensures { result.now ≡ (map_at self.now map).name }
    {
        let row = &self.maps[map as usize];
        row.name.text()
    }

    /// The words of a location.
    fn location_words(&self, place: u32, index: u32) -> Words
        requires { IsLocation self.now place index }
        ensures words { result ≡ words_of self.now place index }
        ensures on { All (IsWordOn (port_at self.now (place_at self.now place).port).kind
            (port_at self.now (place_at self.now place).port).bytes) result }
    {
        let kept = &self.words[place as usize];
        kept.location(index)
    }

    /// The words of all locations of all places by port and address, those of one address by place,
    /// location and order. The table gets an owner more, and nothing is copied.
    ///
    /// # Errors
    ///
    /// An allocation that failed.
    pub fn shared_rows(&self) -> Result<Rc<Vec<WordRow>>, AllocError>
        ensures { IfOk result (λ rows. rows.value.items ≡ self.now.rows) }
    {
        self.rows.clone()
    }
}
