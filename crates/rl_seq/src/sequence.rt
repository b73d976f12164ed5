//! What a sequence goes over: which registers or memories, and which of their places.
ghost use Rattle.std.specs.Prelude.{◌≡◌, ◌<◌, IfSome, length};
ghost use Rattle.rl_seq.specs.Sequences.{items_of, item_of, is_chosen, has_rights, is_visited};

use crate::choice::{is_accessed, is_of, is_reg_tested, is_shared, is_walked, may_read, may_write};
use rl_map::Layout;
use rl_model::{Chip, Item, Skip};

/// The five predefined sequences (IEEE 1800.2-2017, Annex E); their exact steps are this project's own.
#[derive(Clone, Copy)]
pub enum Sequence {
    /// `uvm_reg_hw_reset_seq`: a HARD reset, and a check of each register at each place that may be read.
    HwReset,
    /// `uvm_reg_bit_bash_seq`: each compared bit of each register turned round twice, with a check each time.
    BitBash,
    /// `uvm_reg_access_seq`: each register over the bus against the backdoor, and the other way round.
    Access,
    /// `uvm_reg_shared_access_seq`: each register of several places written through one and checked through the others.
    Shared,
    /// `uvm_mem_walk_seq`: each location of each writable memory written, and checked once its neighbour was.
    MemWalk,
}

impl Sequence {
    /// How many registers, or memories, it chooses from.
    pub(crate) fn items(self, chip: &Chip) -> u32
        ensures { result ≡ items_of self chip.now }
    {
        match self {
            Sequence::MemWalk => chip.mems(),
            _ => chip.regs(),
        }
    }

    /// The register, or memory, with this number.
    pub(crate) fn item(self, number: u32) -> Item
        ensures { result ≡ item_of self number }
    {
        match self {
            Sequence::MemWalk => Item::Mem(number),
            _ => Item::Reg(number),
        }
    }

    /// Whether it chooses the register, or memory, with this number.
    pub(crate) fn is_chosen(
        self,
        chip: &Chip,
        layout: &Layout,
        block: Option<u32>,
        number: u32,
    ) -> bool
        requires number { number < items_of self chip.now }
        requires block { IfSome block (λ b. b < chip.now.blocks) }
        ensures { result ≡ is_chosen self chip.now layout.now block number }
    {
        match self {
            Sequence::HwReset => is_reg_tested(chip, number, block, Skip::NO_REG_HW_RESET_TEST),
            Sequence::BitBash => is_reg_tested(chip, number, block, Skip::NO_REG_BIT_BASH_TEST),
            Sequence::Access => is_accessed(chip, number, block),
            Sequence::Shared => is_shared(chip, layout, number, block),
            Sequence::MemWalk => is_walked(chip, number, block),
        }
    }

    /// Whether it visits the place: one of the item's, with the rights that it needs.
    pub(crate) fn visits(self, layout: &Layout, number: u32, place: u32) -> bool
        requires { place < length layout.now.places }
        ensures { result ≡ is_visited self layout.now number place }
    {
        is_of(layout, place, self.item(number)) && self.has_rights(layout, place)
    }

    fn has_rights(self, layout: &Layout, place: u32) -> bool
        requires { place < length layout.now.places }
        ensures { result ≡ has_rights self layout.now place }
    {
        match self {
            Sequence::HwReset => may_read(layout, place),
            Sequence::Shared => may_write(layout, place),
            _ => may_read(layout, place) && may_write(layout, place),
        }
    }
}
