//! What a description says of a chip.
use crate::name::Name;
use crate::sets::Skip;
use rl_policy::Policy;
use std::marker::Model;

/// A block (`uvm_reg_block`, IEEE 1800.2-2017, 18.1) or a register file (`uvm_reg_file`, 18.3): a scope of other items.
#[derive(Debug, Drop)]
pub struct ScopePart {
    /// One name, without dots.
    pub name: Name,
    /// The path of the block or file that holds it, or none at the top.
    pub of: Option<Name>,
}

/// A register of whole bytes with its fields (`uvm_reg`, IEEE 1800.2-2017, 18.4).
#[derive(Debug, Drop)]
pub struct RegPart {
    /// One name, without dots.
    pub name: Name,
    /// The path of the block or file that holds it, or none at the top.
    pub of: Option<Name>,
    /// 1 to 8 bytes.
    pub bytes: u64,
    /// Whether the register can be read and written without a bus.
    pub backdoor: bool,
    /// The tests that leave the register out.
    pub skip: Skip,
    /// In description order, which need not be that of their bits.
    pub fields: Vec<FieldPart>,
}

impl Model for RegPart {
    ghost use Rattle.rl_model.specs.Data.{RegData};

    ghost Value = { RegData };

    ghost view = { λ r. record {
      name = r.name;
      of = r.of;
      bytes = r.bytes;
      backdoor = r.backdoor;
      skip = r.skip;
      fields = r.fields.items;
    } };
}

/// A field: bits of one register under one access policy (`uvm_reg_field`, IEEE 1800.2-2017, 18.5).
#[derive(Debug, Drop)]
pub struct FieldPart {
    /// One name, without dots.
    pub name: Name,
    /// The number of the lowest bit in the register.
    pub lsb: u64,
    /// 1 to 64 bits.
    pub width: u64,
    /// What a write and a read do to the bits.
    pub policy: Policy,
    /// Whether the device may change the field by itself.
    pub volatile: bool,
    /// Whether a check compares the field.
    pub compare: bool,
    /// Whether the field may be accessed without the rest of the register.
    pub alone: bool,
    /// At most one value for a kind.
    pub resets: Vec<ResetPart>,
}

impl Model for FieldPart {
    ghost use Rattle.rl_model.specs.Data.{FieldData};

    ghost Value = { FieldData };

    ghost view = { λ f. record {
      name = f.name;
      lsb = f.lsb;
      width = f.width;
      policy = f.policy;
      volatile = f.volatile;
      compare = f.compare;
      alone = f.alone;
      resets = f.resets.items;
    } };
}

/// The value of a field after a reset of a kind (`uvm_reg_field::set_reset`, IEEE 1800.2-2017, 18.5).
#[derive(Debug, Drop)]
pub struct ResetPart {
    /// One name, as `HARD` or `SOFT`.
    pub kind: Name,
    /// Below 2 to the power of the field's width.
    pub value: u64,
}

/// A memory of `size` locations of `bytes` bytes each (`uvm_mem`, IEEE 1800.2-2017, 18.6).
#[derive(Debug, Drop)]
pub struct MemPart {
    /// One name, without dots.
    pub name: Name,
    /// The path of the block that holds it, or none at the top.
    pub of: Option<Name>,
    /// 1 to 8 bytes of a location.
    pub bytes: u64,
    /// The number of locations, 1 to 65,536.
    pub size: u64,
    /// Whether the bus may write it.
    pub writable: bool,
    /// Whether the memory can be read and written without a bus.
    pub backdoor: bool,
    /// The tests that leave the memory out.
    pub skip: Skip,
}

/// All that a chip is built of, each array in description order. A parent comes before what it holds.
#[derive(Debug, Drop)]
pub struct Parts {
    /// At most 256 blocks.
    pub blocks: Vec<ScopePart>,
    /// At most 256 register files.
    pub files: Vec<ScopePart>,
    /// At most 1,024 registers.
    pub regs: Vec<RegPart>,
    /// At most 64 memories, with at most 65,536 locations together.
    pub mems: Vec<MemPart>,
}

impl Model for Parts {
    ghost use Rattle.rl_model.specs.Data.{PartsData};

    ghost Value = { PartsData };

    ghost view = { λ p. record {
      blocks = p.blocks.items;
      files = p.files.items;
      regs = p.regs.items;
      mems = p.mems.items;
    } };
}
