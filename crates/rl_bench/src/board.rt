//! The tables of a device with the masks of its registers.
ghost use Rattle.std.specs.Prelude.{◌≡◌, IfOk};
ghost use Rattle.rl_bench.specs.Beats.{AreQueuesOf};
ghost use Rattle.rl_bench.specs.Board.{IsSetup, AreShapesOf};
ghost use Rattle.rl_bench.specs.Tables.{setup_held};

use crate::beats::{Queue, queues_of};
use crate::build::shapes_of;
use crate::shape::Shape;
use crate::tables::Tables;
use std::alloc::{AllocError, Global};

/// Tables that name what is there, and the masks of each register and the addresses with more than
/// one word.
#[derive(Drop)]
pub struct Board {
    /// What the device has, and its flaws.
    pub tables: Tables,
    /// The masks of each register.
    pub shapes: Vec<Shape>,
    /// The addresses where words queue.
    pub queues: Vec<Queue>,
    ghost sound: { IsSetup (setup_held tables) },
    ghost queued: { AreQueuesOf (setup_held tables).words queues.items },
    ghost shaped: { AreShapesOf (setup_held tables) shapes.items },
}

/// The tables with what is made of them.
pub fn board_of(alloc: Global, tables: Tables) -> Result<Board, AllocError>
    requires { IsSetup (setup_held tables) }
    ensures { IfOk result (λ board. setup_held board.tables ≡ setup_held tables) }
{
    let shapes = shapes_of(alloc, &tables)?;
    let queues = queues_of(alloc, tables.words())?;
    Ok(Board {
        tables,
        shapes,
        queues,
    })
}
