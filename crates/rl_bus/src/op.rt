// An operation on the bus, its answer, and what an adapter can carry.

use crate::ShortName;

/// One word that is read or written at an address: kind, address, data and byte enables of `uvm_reg_bus_op`
/// (IEEE 1800.2-2017, 19.1).
///
/// `bytes` is the width of the bus in bytes. Bit `l` of `lanes` enables byte `l` of `word`, counted
/// from the lowest.
#[derive(Clone, Copy, Debug, PartialEq, Eq)]
pub struct BusOp {
    /// A write, and otherwise a read.
    pub write: bool,
    /// The address, as the bus counts.
    pub address: u64,
    /// The word that is written, and 0 in a read.
    pub word: u64,
    /// Which bytes of the word are enabled.
    pub lanes: u8,
    /// The width of the bus in bytes.
    pub bytes: u8,
}

/// What came back for an operation: the word read, and whether the operation failed, which are data and status of
/// `uvm_reg_bus_op` (IEEE 1800.2-2017, 19.1).
#[derive(Clone, Copy, Debug, PartialEq, Eq)]
pub struct Answer {
    /// The word that was read.
    pub word: u64,
    /// Whether the operation failed.
    pub failed: bool,
}

/// Which operations an adapter carries.
///
/// `most_bytes` and `most_address` are the widest word and the last address. With `aligned` an address is a multiple
/// of the word's bytes. `write_lanes` and `read_lanes` say whether a write and a read carry byte enables
/// (`uvm_reg_adapter::supports_byte_enable`, IEEE 1800.2-2017, 19.2); without them all lanes are enabled. The limits
/// are this project's own.
#[derive(Clone, Copy, Debug, PartialEq, Eq)]
pub struct AdapterKind {
    /// By this name a root map chooses its adapter.
    pub name: ShortName,
    /// The widest word, in bytes.
    pub most_bytes: u8,
    /// The last address.
    pub most_address: u64,
    /// Whether an address is a multiple of the word's bytes.
    pub aligned: bool,
    /// Whether a write carries byte enables.
    pub write_lanes: bool,
    /// Whether a read carries byte enables.
    pub read_lanes: bool,
}
