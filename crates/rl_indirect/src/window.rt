//! The two registers of a window, and why they are none.
ghost use Rattle.std.specs.Prelude.{◌≡◌, ◌<◌, true, length};
ghost use Rattle.rl_indirect.specs.Window.{is_rw, is_index, is_index_field, is_data, is_data_field, is_size};
ghost use Rattle.rl_indirect.specs.Window.{window_fault};
ghost use Rattle.rl_indirect.specs.declared.window.WindowFault.TheVariants.{Memory};

use rl_mirror::{field_at, field_count};
use rl_model::{Chip, Field};
use rl_policy::policy::spends;
use rl_policy::{Policy, mask};
use std::alloc::AllocError;

/// A window (`uvm_reg_indirect_data`, IEEE 1800.2-2017, 18.7): the register that selects an entry, and the one that
/// holds the selected entry. Both are named by their numbers in the chip.
#[derive(Clone, Copy, Debug, PartialEq, Eq)]
pub struct Window {
    /// The register that selects an entry.
    pub index_reg: u32,
    /// The register that holds the selected entry.
    pub data_reg: u32,
}

/// Why a bank is not built: the first of these that holds. They are this project's own.
#[derive(Clone, Copy, Debug, PartialEq, Eq)]
pub enum WindowFault {
    /// The index register is the data register.
    SameRegister,
    /// The index register hasn't exactly one field, or that isn't at bit 0, isn't RW, or is volatile.
    BadIndex,
    /// A field of the data register is W1, WO1 or volatile.
    BadData,
    /// There is no entry, or there are more than 65,536, or more than the index field can select.
    BadSize,
    /// The index register selects no entry: the device has this value in it, or, where that selects one, it is the
    /// mirrored value.
    IndexOutside { value: u64 },
    /// The allocator had no memory left.
    Memory,
}

impl From<AllocError> for WindowFault {
    ghost from_gives = { λ _ e. e ≡ Memory };

    fn from(_e: AllocError) -> WindowFault {
        WindowFault::Memory
    }
}

impl Window {
    /// The first condition of its registers and of a number of entries that fails.
    pub(crate) fn fault(&self, chip: &Chip, size: u32) -> Option<WindowFault>
        requires index_reg { self.now.index_reg < length chip.now.regs }
        requires data_reg { self.now.data_reg < length chip.now.regs }
        ensures { result ≡ window_fault chip.now self.now size }
    {
        if self.index_reg == self.data_reg {
            return Some(WindowFault::SameRegister);
        }
        if !is_index(chip, self.index_reg) {
            return Some(WindowFault::BadIndex);
        }
        if !is_data(chip, self.data_reg) {
            return Some(WindowFault::BadData);
        }
        if !is_size(chip, self.index_reg, size) {
            return Some(WindowFault::BadSize);
        }
        None
    }
}

fn is_rw(policy: Policy) -> bool
    ensures { result ≡ is_rw policy }
{
    matches!(policy, Policy::Rw)
}

fn is_index_field(field: &Field) -> bool
    ensures { result ≡ is_index_field field.now }
{
    field.lsb == 0 && is_rw(field.policy) && !field.volatile
}

fn is_data_field(field: &Field) -> bool
    ensures { result ≡ is_data_field field.now }
{
    !spends(field.policy) && !field.volatile
}

/// Whether a register can be the index register of a window.
fn is_index(chip: &Chip, reg: u32) -> bool
    requires { reg < length chip.now.regs }
    ensures { result ≡ is_index chip.now reg }
{
    field_count(chip, reg) == 1 && is_index_field(&field_at(chip, reg, 0))
}

/// Whether a register can be the data register of a window.
fn is_data(chip: &Chip, reg: u32) -> bool
    requires { reg < length chip.now.regs }
    ensures { result ≡ is_data chip.now reg }
{
    for k in 0..field_count(chip, reg) {
        if !is_data_field(&field_at(chip, reg, k)) {
            return false;
        }
    }
    true
}

/// Whether an index register can select so many entries.
fn is_size(chip: &Chip, reg: u32, size: u32) -> bool
    requires reg { reg < length chip.now.regs }
    requires index { is_index chip.now reg ≡ true }
    ensures { result ≡ is_size chip.now reg size }
{
    let width = field_at(chip, reg, 0).width;
    0 < size && size <= 65536 && u64::from(size) - 1 <= mask(width)
}
