//! A chip as it is where nothing has a backdoor.
ghost use Rattle.std.specs.Prelude.{◌≡◌, map};
ghost use Rattle.rl_model.specs.Chip.{closed_chip, closed_reg, closed_mem};

use crate::chip::Chip;
use crate::rows::{MemRow, RegRow};

/// Takes the backdoors of registers away.
fn close_regs(rows: &mut [RegRow])
    ensures { rows.new ≡ map closed_reg rows.old }
{
    for row in rows.iter_mut() {
        row.backdoor = false;
    }
}

/// Takes the backdoors of memories away.
fn close_mems(rows: &mut [MemRow])
    ensures { rows.new ≡ map closed_mem rows.old }
{
    for row in rows.iter_mut() {
        row.backdoor = false;
    }
}

impl Chip {
    /// Takes all backdoors away: each register and memory is as it was, but is reached by a bus alone.
    ///
    /// # Examples
    ///
    /// `chip` has a register `a` with a backdoor.
    ///
    /// ```text
    /// chip.backdoor(Item::Reg(0)) == true
    /// chip.close_backdoors();
    /// chip.backdoor(Item::Reg(0)) == false
    /// chip.reg_by_path(b"a") == Some(0)
    /// ```
    pub fn close_backdoors(&mut self)
        ensures { self.new ≡ closed_chip self.old }
    {
        close_regs(&mut self.regs);
        close_mems(&mut self.mems);
    }
}
