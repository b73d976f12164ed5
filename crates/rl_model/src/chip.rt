//! A chip, and what it answers.
ghost use Rattle.std.specs.Prelude.{◌≡◌, ◌+◌, ◌^◌, ◌<◌, ◌≤◌, ◌↔◌, ℕ, Some, IfSome, position, length, slice_get};
ghost use Rattle.std.specs.Prelude.{option_map, option_and_then, bytes_eq, unwrap_or, IsTrue, []};
ghost use Rattle.rl_policy.specs.Masks.{AreEffectsOf};
ghost use Rattle.rl_model.specs.Fields.{fields_of, policy_at};
ghost use Rattle.rl_model.specs.Chip.{HasItem, HasBits, Holds, bytes_of, backdoor_of, skip_of, place_of, path_at};
ghost use Rattle.rl_model.specs.Chip.{path_of_item, value_for, is_inside, field_path, last_dot, IsNamed, IsSound};

use crate::paths::Paths;
use crate::rows::{Field, FieldRow, Item, MemRow, RegRow, Reset};
use crate::sets::Skip;
use rl_policy::Effects;
use std::marker::Model;

/// The registers, fields, memories, blocks and reset kinds of a description. Look-ups by text are by
/// hash, and all other calls but `reset_of` and `within` read one row.
pub struct Chip {
    pub(crate) blocks: u32,
    pub(crate) scopes: usize,
    pub(crate) paths: Paths,
    pub(crate) regs: Vec<RegRow>,
    pub(crate) mems: Vec<MemRow>,
    pub(crate) fields: Vec<FieldRow>,
    pub(crate) kinds: Paths,
    pub(crate) effects: Vec<Effects>,
}

// Written out, so that whoever owns a chip lets it go by one call, and not field by field.
impl Drop for Chip {
    fn drop(self) {
        let Chip {
            blocks: _,
            scopes: _,
            paths: _,
            regs: _,
            mems: _,
            fields: _,
            kinds: _,
            effects: _,
        } = self;
    }
}

impl Model for Chip {
    ghost use Rattle.rl_model.specs.Rows.{ChipData};

    ghost Value = { ChipData };

    ghost use Rattle.rl_model.specs.Chip.{IsSound};
    ghost use Rattle.rl_model.specs.Masks.{AreEffects};

    ghost view = { λ c. record {
      blocks = c.blocks;
      scopes = c.scopes;
      paths = c.paths;
      regs = c.regs.items;
      mems = c.mems.items;
      fields = c.fields.items;
      kinds = c.kinds;
    } };

    ghost invariant = { λ c. IsSound (record {
      blocks = c.blocks;
      scopes = c.scopes;
      paths = c.paths;
      regs = c.regs.items;
      mems = c.mems.items;
      fields = c.fields.items;
      kinds = c.kinds;
    }) × AreEffects c.regs.items c.fields.items c.effects.items };
}

impl Chip {
    /// How many registers there are.
    pub fn regs(&self) -> u32
        ensures count { result ≡ length self.now.regs }
        ensures sound { IsSound self.now }
    {
        self.regs.len() as u32
    }

    /// How many memories there are.
    pub fn mems(&self) -> u32
        ensures count { result ≡ length self.now.mems }
        ensures sound { IsSound self.now }
    {
        self.mems.len() as u32
    }

    /// How many fields there are in all registers.
    pub fn fields(&self) -> u32
        ensures count { result ≡ length self.now.fields }
        ensures sound { IsSound self.now }
    {
        self.fields.len() as u32
    }

    /// How many reset kinds there are, with HARD and SOFT.
    pub fn kinds(&self) -> u32
        ensures count { result ≡ length self.now.kinds }
        ensures sound { IsSound self.now }
    {
        self.kinds.len() as u32
    }

    /// The field with this number, counted through all registers.
    pub fn field(&self, field: u32) -> Field
        requires { field < length self.now.fields }
        ensures value { option_map (λ f. f.shape) (slice_get self.now.fields field) ≡ Some result }
        ensures fits { HasBits self.now result }
        ensures sound { IsSound self.now }
    {
        let row = &self.fields[field as usize];
        row.shape
    }

    /// The name of a field, without its register's path.
    pub fn field_name(&self, field: u32) -> &[u8]
        requires { field < length self.now.fields }
        ensures { option_map (λ f. f.name) (slice_get self.now.fields field) ≡ Some result.now }
    {
        let row = &self.fields[field as usize];
        row.name.text()
    }

    /// The number of the register's first field. Its other fields follow in description order.
    pub fn first_field(&self, reg: u32) -> u32
        requires { reg < length self.now.regs }
        ensures value { option_map (λ r. r.first) (slice_get self.now.regs reg) ≡ Some result }
        ensures sound { IsSound self.now }
    {
        self.regs[reg as usize].first
    }

    /// How many fields the register has.
    pub fn field_count(&self, reg: u32) -> u32
        requires { reg < length self.now.regs }
        ensures value { option_map (λ r. r.count) (slice_get self.now.regs reg) ≡ Some result }
        ensures few { result ≤ 64 }
        ensures sound { IsSound self.now }
    {
        self.regs[reg as usize].count
    }

    /// The masks of the register: its bits by what a write and a read do to them.
    pub fn effects(&self, reg: u32) -> &Effects
        requires { reg < length self.now.regs }
        ensures value { AreEffectsOf (policy_at (fields_of self.now reg)) result.now }
        ensures sound { IsSound self.now }
    {
        &self.effects[reg as usize]
    }

    /// The value that a field has after a reset of a kind, if it has one (`uvm_reg_field::reset`, IEEE 1800.2-2017,
    /// 18.5).
    pub fn reset_of(&self, field: u32, kind: u32) -> Option<u64>
        requires field { field < length self.now.fields }
        requires kind { kind < length self.now.kinds }
        ensures value { result ≡ option_and_then (λ f. value_for kind f.resets) (slice_get self.now.fields field) }
        ensures sound { IsSound self.now }
    {
        let row = &self.fields[field as usize];
        value_for(kind as usize, &row.resets)
    }

    /// The reset values of a field, in description order.
    pub fn resets(&self, field: u32) -> &[Reset]
        requires { field < length self.now.fields }
        ensures { option_map (λ f. f.resets) (slice_get self.now.fields field) ≡ Some result.now }
    {
        let row = &self.fields[field as usize];
        row.resets.as_slice()
    }

    /// How many locations the memory has.
    pub fn size(&self, mem: u32) -> u32
        requires { mem < length self.now.mems }
        ensures value { option_map (λ m. m.size) (slice_get self.now.mems mem) ≡ Some result }
        ensures range { (1 ≤ result) × (result ≤ 65536) }
        ensures sound { IsSound self.now }
    {
        self.mems[mem as usize].size
    }

    /// Whether the bus may write the memory.
    pub fn writable(&self, mem: u32) -> bool
        requires { mem < length self.now.mems }
        ensures { option_map (λ m. m.writable) (slice_get self.now.mems mem) ≡ Some result }
    {
        self.mems[mem as usize].writable
    }

    /// The bytes of a register, or of one location of a memory.
    pub fn bytes(&self, item: Item) -> u32
        requires { HasItem self.now item }
        ensures value { bytes_of self.now item ≡ Some result }
        ensures range { (1 ≤ result) × (result ≤ 8) }
        ensures sound { IsSound self.now }
    {
        match item {
            Item::Reg(reg) => self.regs[reg as usize].bytes,
            Item::Mem(mem) => self.mems[mem as usize].bytes,
        }
    }

    /// Whether the item can be read and written without a bus.
    pub fn backdoor(&self, item: Item) -> bool
        requires { HasItem self.now item }
        ensures { backdoor_of self.now item ≡ Some result }
    {
        match item {
            Item::Reg(reg) => self.regs[reg as usize].backdoor,
            Item::Mem(mem) => self.mems[mem as usize].backdoor,
        }
    }

    /// The tests that leave the item out.
    pub fn skips(&self, item: Item) -> Skip
        requires { HasItem self.now item }
        ensures { skip_of self.now item ≡ Some result }
    {
        match item {
            Item::Reg(reg) => self.regs[reg as usize].skip,
            Item::Mem(mem) => self.mems[mem as usize].skip,
        }
    }

    /// The names from the outermost block inward to the item, joined by dots.
    pub fn path(&self, item: Item) -> &[u8]
        requires { HasItem self.now item }
        ensures { result.now ≡ path_of_item self.now item }
    {
        let place = match item {
            Item::Reg(reg) => self.scopes + reg as usize,
            Item::Mem(mem) => self.scopes + self.regs.len() + mem as usize,
        };
        self.paths.text(place)
    }

    /// The names from the outermost block inward to the block, joined by dots.
    pub fn block_path(&self, block: u32) -> &[u8]
        requires { block < self.now.blocks }
        ensures { result.now ≡ path_at self.now block }
    {
        self.paths.text(block as usize)
    }

    /// The name of a reset kind: HARD is 0, SOFT is 1, and others follow as they first appear.
    pub fn kind_name(&self, kind: u32) -> &[u8]
        requires { kind < length self.now.kinds }
        ensures { slice_get self.now.kinds kind ≡ Some result.now }
    {
        self.kinds.text(kind as usize)
    }

    /// Whether the block, or a block or file inside it, holds the item.
    pub fn within(&self, item: Item, block: u32) -> bool
        requires item { HasItem self.now item }
        requires block { block < self.now.blocks }
        ensures inside { result ≡ is_inside (path_at self.now block) (path_of_item self.now item) }
        ensures chain { IsTrue result ↔ Holds self.now block (path_of_item self.now item) }
    {
        // A chip that is opened is known to be sound.
        let _ = &self.paths;
        is_inside(self.block_path(block), self.path(item))
    }

    /// The register with this path, or none where no register has it.
    pub fn reg_by_path(&self, path: &[u8]) -> Option<u32>
        ensures { (n : ℕ) → (result ≡ Some n) ↔ ((n < length self.now.regs)
            × (slice_get self.now.paths (self.now.scopes + n) ≡ Some path.now)) }
    {
        counted_from(self.paths.number(path), self.scopes, self.regs.len())
    }

    /// The memory with this path, or none where no memory has it.
    pub fn mem_by_path(&self, path: &[u8]) -> Option<u32>
        ensures { (n : ℕ) → (result ≡ Some n) ↔ ((n < length self.now.mems)
            × (slice_get self.now.paths (self.now.scopes + length self.now.regs + n) ≡ Some path.now)) }
    {
        counted_from(
            self.paths.number(path),
            self.scopes + self.regs.len(),
            self.mems.len(),
        )
    }

    /// The field whose register's path, a dot and its name are this text, or none.
    pub fn field_by_path(&self, path: &[u8]) -> Option<u32>
        ensures { (n : ℕ) → (result ≡ Some n) ↔ (option_map (field_path self.now) (slice_get self.now.fields n)
            ≡ Some path.now) }
    {
        // A chip that is opened is known to be sound.
        let _ = &self.fields;
        match last_dot(path) {
            None => None,
            Some(dot) => match self.reg_by_path(&path[..dot]) {
                None => None,
                Some(reg) => self.field_in(reg, &path[dot + 1..]),
            },
        }
    }

    /// The field of a register with a name.
    fn field_in(&self, reg: u32, name: &[u8]) -> Option<u32>
        requires { reg < length self.now.regs }
        ensures { (n : ℕ) → (result ≡ Some n) ↔ IsNamed self.now reg name.now n }
    {
        let row = self.regs[reg as usize];
        let first = row.first as usize;
        match find_named(&self.fields[first..first + row.count as usize], name) {
            None => None,
            Some(place) => Some(row.first + place as u32),
        }
    }

    /// The block with this path, or none where no block has it.
    pub fn block_by_path(&self, path: &[u8]) -> Option<u32>
        ensures { (n : ℕ) → (result ≡ Some n) ↔ ((n < self.now.blocks) × (slice_get self.now.paths n ≡ Some path.now)) }
    {
        counted_from(self.paths.number(path), 0, self.blocks as usize)
    }

    /// The reset kind with this name, or none.
    pub fn kind_by_name(&self, name: &[u8]) -> Option<u32>
        ensures { (n : ℕ) → (result ≡ Some n) ↔ (slice_get self.now.kinds n ≡ Some name.now) }
    {
        counted_from(self.kinds.number(name), 0, self.kinds.len())
    }
}

fn value_for(kind: usize, resets: &[Reset]) -> Option<u64>
    ensures { result ≡ value_for kind resets.now }
{
    for reset in resets {
        if reset.kind == kind {
            return Some(reset.value);
        }
    }
    None
}

fn is_inside(block: &[u8], path: &[u8]) -> bool
    ensures { result ≡ is_inside block.now path.now }
{
    block.len() < path.len() && &path[..block.len()] == block && path[block.len()] == b'.'
}

/// A number counted from `first`, if it is one of the `count` from there.
fn counted_from(number: Option<usize>, first: usize, count: usize) -> Option<u32>
    requires { count < 2 ^ 32 }
    ensures { (n : ℕ) → (result ≡ Some n) ↔ ((n < count) × (number ≡ Some (first + n))) }
{
    let number = number?;
    if number < first || number - first >= count {
        return None;
    }
    Some((number - first) as u32)
}

/// The place of the last dot.
fn last_dot(path: &[u8]) -> Option<usize>
    ensures value { result ≡ last_dot path.now }
    ensures within { IfSome result (λ i. i < length path.now) }
{
    let mut i = path.len();
    while i > 0 {
        i -= 1;
        if path[i] == b'.' {
            return Some(i);
        }
    }
    None
}

fn find_named(fields: &[FieldRow], name: &[u8]) -> Option<usize>
    ensures { result ≡ position (λ f. bytes_eq f.name name.now) fields.now }
{
    fields.iter().position(|field| field.name.text() == name)
}
