//! What a description says of the maps and of the places in them.
use crate::path::Kind;
use rl_model::{Name, Rights};

/// An address map (`uvm_reg_map`, IEEE 1800.2-2017, 18.2).
///
/// `base`, `adapter` and `explicit` are used in a root alone, and `offset` in a map with a parent.
#[derive(Debug, Drop)]
pub struct MapNode {
    /// One name, without dots.
    pub name: Name,
    /// Where the root's addresses begin on its bus.
    pub base: u64,
    /// The width in bytes: 1, 2, 4 or 8.
    pub bytes: u64,
    /// Where the words of a wider item are.
    pub kind: Kind,
    /// Whether addresses count words of the map's own width, and not bytes.
    pub word: bool,
    /// The name of an earlier map in which this one is (`uvm_reg_map::add_submap`), or none for a root.
    pub parent: Option<Name>,
    /// Where the map starts in its parent, in the parent's unit of addresses.
    pub offset: u64,
    /// The name of the kind of adapter that carries the root's operations.
    pub adapter: Name,
    /// Whether a predictor watches the root's bus, in place of implicit prediction (`uvm_reg_map::set_auto_predict`).
    pub explicit: bool,
}

/// A register or a memory in a map (`uvm_reg_map::add_reg` and `add_mem`, IEEE 1800.2-2017, 18.2).
#[derive(Debug, Drop)]
pub struct PlacePart {
    /// The name of the map.
    pub map: Name,
    /// The path of the register or memory, its names joined by dots.
    pub item: Name,
    /// Where the item starts in the map, in the map's unit of addresses.
    pub offset: u64,
    /// What the bus may do with the item here.
    pub rights: Rights,
}
