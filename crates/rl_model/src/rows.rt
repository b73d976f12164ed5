//! What a chip keeps of its registers, fields and memories.
use crate::name::Name;
use crate::sets::Skip;
use rl_policy::Policy;
use std::marker::Model;

/// A field: where it lies in its register, and how it behaves (`uvm_reg_field`, IEEE 1800.2-2017, 18.5).
#[derive(Clone, Copy, Debug, PartialEq, Eq)]
pub struct Field {
    /// The number of its register.
    pub reg: u32,
    /// The number of its lowest bit in the register.
    pub lsb: u32,
    /// 1 to 64 bits.
    pub width: u32,
    /// What a write and a read do to its bits.
    pub policy: Policy,
    /// Whether the device may change it by itself.
    pub volatile: bool,
    /// Whether a check compares it.
    pub compare: bool,
    /// Whether it may be accessed without the rest of the register.
    pub alone: bool,
}

/// A register (`uvm_reg`, IEEE 1800.2-2017, 18.4) or a memory (`uvm_mem`, 18.6), by its number among those of its sort.
#[derive(Clone, Copy, Debug, PartialEq, Eq)]
pub enum Item {
    /// The register with this number.
    Reg(u32),
    /// The memory with this number.
    Mem(u32),
}

/// The value of a field after a reset of a kind.
#[derive(Clone, Copy, Debug, PartialEq, Eq)]
pub struct Reset {
    /// The number of the kind.
    pub kind: usize,
    /// Below 2 to the power of the field's width.
    pub value: u64,
}

/// A register, with the number of its first field and of its fields.
#[derive(Clone, Copy)]
pub(crate) struct RegRow {
    pub(crate) bytes: u32,
    pub(crate) backdoor: bool,
    pub(crate) skip: Skip,
    pub(crate) first: u32,
    pub(crate) count: u32,
}

/// A memory of `size` locations.
#[derive(Clone, Copy)]
pub(crate) struct MemRow {
    pub(crate) bytes: u32,
    pub(crate) size: u32,
    pub(crate) writable: bool,
    pub(crate) backdoor: bool,
    pub(crate) skip: Skip,
}

/// A field with its name and reset values.
#[derive(Drop)]
pub(crate) struct FieldRow {
    pub(crate) shape: Field,
    pub(crate) name: Name,
    pub(crate) resets: Vec<Reset>,
}

impl Model for FieldRow {
    ghost use Rattle.rl_model.specs.Rows.{FieldSeen};

    ghost Value = { FieldSeen };

    ghost view = { λ f. record { shape = f.shape; name = f.name; resets = f.resets.items } };
}
