//! Deposits that go past the bus.
ghost use Rattle.std.specs.Prelude.{◌<◌, length};
ghost use Rattle.rl_bus.specs.Device.{IsCellIn};
ghost use Rattle.rl_bus.specs.State.{peeked, poked, hw_set};
ghost use Rattle.rl_bench.specs.Board.{FitCells};
ghost use Rattle.rl_bench.specs.Cells.{CellsGo, CellsAnswer};
ghost use Rattle.rl_bench.specs.Tables.{setup_held};

use crate::access::location;
use crate::board::Board;
use crate::cells::Cells;
use rl_bus::Cell;
use rl_policy::word::{mask, put, replaced, window};

/// The stored bits of a cell.
#[tactic(auto, unfolding(rl_bus::specs::State::peeked))]
pub fn peek_cell(board: &Board, cells: &Cells, cell: Cell) -> u64
    requires fit { FitCells (setup_held board.now.tables) cells.now }
    requires cell { IsCellIn (setup_held board.now.tables) cell }
    ensures { CellsAnswer board.now cells.now (λ s. peeked s cell) result }
{
    match cell {
        Cell::Reg { reg } => cells.bits[reg as usize],
        Cell::Loc { mem, index } => cells.locations[location(board, cells, mem, index)],
    }
}

/// Deposits a value in a cell.
pub fn poke_cell(board: &Board, cells: &mut Cells, cell: Cell, value: u64)
    requires fit { FitCells (setup_held board.now.tables) cells.old }
    requires cell { IsCellIn (setup_held board.now.tables) cell }
    ensures fit { FitCells (setup_held board.now.tables) cells.new }
    ensures state { CellsGo board.now cells.old cells.new (λ s. poked s cell value) }
{
    match cell {
        Cell::Reg { reg } => {
            let at = reg as usize;
            let shape = board.shapes[at];
            let deposited = replaced(cells.bits[at], value, shape.effects.owned);
            cells.bits[at] = shape.hold(deposited);
        }
        Cell::Loc { mem, index } => {
            let bytes = board.tables.mems[mem as usize].bytes;
            let at = location(board, cells, mem, index);
            cells.locations[at] = value & mask(8 * bytes);
        }
    }
}

/// Deposits a value in a field.
pub fn set_field(board: &Board, cells: &mut Cells, field: u32, value: u64)
    requires fit { FitCells (setup_held board.now.tables) cells.old }
    requires field { field < length (setup_held board.now.tables).fields }
    ensures fit { FitCells (setup_held board.now.tables) cells.new }
    ensures state { CellsGo board.now cells.old cells.new (λ s. hw_set s field value) }
{
    let row = board.tables.fields[field as usize];
    let at = row.reg as usize;
    let part = value & mask(row.width);
    let deposited = put(cells.bits[at], row.lsb, row.width, part);
    cells.bits[at] = board.shapes[at].hold(deposited);
}
