//! Resets.
ghost use Rattle.rl_bench.specs.Board.{FitCells};
ghost use Rattle.rl_bench.specs.Cells.{AreReset, bit_after_reset};
ghost use Rattle.rl_policy.specs.Masks.{HasBits};
ghost use Rattle.rl_bench.specs.Tables.{setup_held};

use crate::board::Board;
use crate::cells::Cells;
use crate::find::fields_of;
use crate::seat::{seat_in, with_value};

/// The bits of a register after a reset, before its stuck bits are held.
pub fn reset_word(board: &Board, reg: u32, kind: u32, bits: u64) -> u64
    ensures { HasBits result (bit_after_reset (setup_held board.now.tables) kind reg bits) }
{
    let mut word = bits;
    let mut taken = 0u64;
    let own = fields_of(&board.tables.fields, reg);
    for k in own.first..own.end {
        let row = board.tables.fields[k];
        let free = seat_in(&row, reg) & !taken;
        word = with_value(&row, board.tables.reset_of(k as u32, kind), word, free);
        taken |= free;
    }
    word
}

/// Resets the registers.
pub fn reset_cells(board: &Board, cells: &mut Cells, kind: u32)
    requires { FitCells (setup_held board.now.tables) cells.old }
    ensures fit { FitCells (setup_held board.now.tables) cells.new }
    ensures state { AreReset board.now cells.old cells.new kind }
{
    for reg in 0..board.tables.regs.len() {
        let word = reset_word(board, reg as u32, kind, cells.bits[reg]);
        cells.bits[reg] = board.shapes[reg].hold(word);
    }
    if kind == 0 {
        cells.marks.fill(0);
    }
}
