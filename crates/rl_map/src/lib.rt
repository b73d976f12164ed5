//! Address maps: where each byte of each register and memory is on the bus.
//!
//! A layout is a tree of maps with the places of registers and memories in them. The endian kinds,
//! submaps with an offset and rights per map follow IEEE 1800.2. This project's own are the time order of
//! words, the lanes of a narrower child map, the addresses of word-addressed maps, the limits, and the
//! conditions with their order. Items are named by their paths in the chip, names joined by dots; maps have
//! one name each.
#![tactic(auto)]

mod address;
mod build;
mod checks;
mod fault;
mod find;
mod kept;
pub mod laws;
mod layout;
mod limits;
mod links;
mod maps;
mod parts;
mod path;
mod places;
mod rows;
mod seat;
mod shared;
mod word;

pub use fault::{MapCause, MapFault};
pub use layout::Layout;
pub use parts::{MapNode, PlacePart};
pub use path::Kind;
pub use rows::{Here, has_right};
pub use seat::Seat;
pub use word::Word;
