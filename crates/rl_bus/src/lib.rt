//! Bus operations, the adapters that carry them, and the devices that answer.
//!
//! An operation ([`BusOp`]) goes through an [`Adapter`], which turns it into a [`Transfer`] on the
//! wires; a [`Device`] answers with a [`Response`], which the adapter turns back into an [`Answer`].
//! [`exchange`] is that whole way. Operation and adapter are those of IEEE 1800.2; the tags, the trail
//! and the device with its tables and flaws are this project's own.
#![tactic(auto)]

mod adapter;
mod device;
mod fitting;
mod law;
mod name;
mod op;
mod plain;
mod send;
mod table;
mod trail;
mod transfer;

pub use adapter::{Adapter, Adapters};
pub use device::{Device, Failed};
pub use law::beats_name_words;
pub use name::ShortName;
pub use op::{AdapterKind, Answer, BusOp};
pub use plain::PlainAdapter;
pub use send::{Exchanged, exchange, kind_of};
pub use table::{
    Cell, FieldRow, ItemRow, Lanes, MemRow, PolicyRow, RangeRow, ResetRow, StuckRow, WordRow,
};
pub use trail::{trail_of_answer, trail_of_operation};
pub use transfer::{
    ApbResponse, ApbTransfer, PlainResponse, PlainTransfer, Response, Transfer, carried,
    response_to,
};
