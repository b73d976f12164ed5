//! What an item does to the cell of its word.
ghost use Rattle.std.specs.Prelude.{◌≡◌, ◌<◌, if◌then◌else◌, length};
ghost use Rattle.rl_policy.specs.Bits.{bit, from_bits};
ghost use Rattle.rl_bus.specs.Device.{IsCellIn};
ghost use Rattle.rl_bus.specs.Setup.{location, mem_of};
ghost use Rattle.rl_bus.specs.Spread.{AreInCell, spread_bit, lane_bit, gathered_bit};
ghost use Rattle.rl_bus.specs.State.{shown_bit, word_shown, after_reading, after_writing, after_word};
ghost use Rattle.rl_bench.specs.Board.{FitCells, IsWordIn};
ghost use Rattle.rl_bench.specs.Cells.{CellsGo, CellsAnswer};
ghost use Rattle.rl_bench.specs.Tables.{setup_held};

use crate::board::Board;
use crate::cells::Cells;
use rl_bus::{BusOp, Cell, Lanes, WordRow};
use rl_policy::word::replaced;

/// Where a location is among those of all memories.
pub fn location(board: &Board, cells: &Cells, mem: u32, index: u32) -> usize
    requires fit { FitCells (setup_held board.now.tables) cells.now }
    requires mem { mem < length (setup_held board.now.tables).mems }
    requires index { index < (mem_of (setup_held board.now.tables) mem).size }
    ensures at { result ≡ location (setup_held board.now.tables) mem index }
    ensures within { result < length cells.now.locations.items }
{
    board.tables.mems[mem as usize].first as usize + index as usize
}

/// Reads the bits of a cell in these lanes.
pub fn read_cell(board: &Board, cells: &mut Cells, lanes: &Lanes, cell: Cell) -> u64
    requires fit { FitCells (setup_held board.now.tables) cells.old }
    requires cell { IsCellIn (setup_held board.now.tables) cell }
    requires lanes { AreInCell lanes.now }
    ensures fit { FitCells (setup_held board.now.tables) cells.new }
    ensures state { CellsGo board.now cells.old cells.new (λ s. after_reading s (lane_bit lanes.now) cell) }
    ensures answer { CellsAnswer board.now cells.old
        (λ s. from_bits 64 (gathered_bit lanes.now (shown_bit s cell))) result }
{
    match cell {
        Cell::Reg { reg } => {
            let at = reg as usize;
            let (word, left) = board.shapes[at].read(lanes, cells.bits[at]);
            cells.bits[at] = left;
            word
        }
        Cell::Loc { mem, index } => {
            let at = location(board, cells, mem, index);
            lanes.gather(cells.locations[at])
        }
    }
}

/// Writes the bits of a word to a cell in these lanes.
pub fn write_cell(board: &Board, cells: &mut Cells, lanes: &Lanes, word: u64, cell: Cell)
    requires fit { FitCells (setup_held board.now.tables) cells.old }
    requires cell { IsCellIn (setup_held board.now.tables) cell }
    requires lanes { AreInCell lanes.now }
    ensures fit { FitCells (setup_held board.now.tables) cells.new }
    ensures state { CellsGo board.now cells.old cells.new
        (λ s. after_writing s (spread_bit lanes.now (bit word)) (lane_bit lanes.now) cell) }
{
    match cell {
        Cell::Reg { reg } => {
            let at = reg as usize;
            let (written, marked) = board.shapes[at].write(
                lanes,
                cells.bits[at],
                cells.marks[at],
                word,
            );
            cells.bits[at] = written;
            cells.marks[at] = marked;
        }
        Cell::Loc { mem, index } => {
            if board.tables.mems[mem as usize].writable {
                let at = location(board, cells, mem, index);
                let carried = lanes.spread(word);
                cells.locations[at] = replaced(cells.locations[at], carried, lanes.covered());
            }
        }
    }
}

/// What an item does to the cell of its word, and what it answers.
pub fn touch(board: &Board, cells: &mut Cells, op: &BusOp, word: &WordRow) -> u64
    requires fit { FitCells (setup_held board.now.tables) cells.old }
    requires word { IsWordIn (setup_held board.now.tables) word.now }
    ensures fit { FitCells (setup_held board.now.tables) cells.new }
    ensures state { CellsGo board.now cells.old cells.new (λ s. after_word s op.now word.now) }
    ensures answer { CellsAnswer board.now cells.old
        (λ s. if op.now.write then 0 else word_shown s op.now word.now) result }
{
    let lanes = Lanes {
        enabled: op.lanes & word.lanes.enabled,
        bytes: word.lanes.bytes,
    };
    if !op.write {
        return read_cell(board, cells, &lanes, word.cell);
    }
    if !board.tables.is_deaf(word.cell) {
        write_cell(board, cells, &lanes, op.word, word.cell);
    }
    0
}
