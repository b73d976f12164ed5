//! What a line says, with its paths and names where they are in it.
ghost use Rattle.std.specs.Prelude.{◌≡◌, IfOk};
ghost use Rattle.rl_script.specs.Said.{item_said, line_said};

use crate::command::Item;
use crate::line::{Line, Sequence};
use crate::names::{Ident, IdentRef, Path, PathRef};
use crate::values::Values;
use std::alloc::{AllocError, Global};

/// A command on one register, field or memory, with its operands.
///
/// A number that the command lacks is 0, and a map that it lacks or that isn't named is none.
#[derive(Debug, Drop)]
pub struct ItemLine<'a> {
    /// The command.
    pub item: Item,
    /// The register, field or memory.
    pub path: PathRef<'a>,
    /// The value, or for a memory the index of the location.
    pub first: u64,
    /// For a memory the value, or how many locations are read.
    pub second: u64,
    /// The map through which an access goes.
    pub map: Option<IdentRef<'a>>,
}

/// What a line says, as `Line`, with no text of its own.
#[derive(Debug, Drop)]
pub enum LineRef<'a> {
    /// No word, or a comment alone.
    Blank,
    /// A command on one register, field or memory.
    OnItem(ItemLine<'a>),
    /// `burst-write MEM K V ..`: writes locations from K on.
    BurstWrite {
        mem: PathRef<'a>,
        first: u64,
        values: Values,
        map: Option<IdentRef<'a>>,
    },
    /// `reset KIND`: resets model and device.
    Reset {
        kind: IdentRef<'a>,
    },
    /// `seq NAME BLOCK`, or `seq NAME *`: over one block, or with no block over the whole chip.
    Seq {
        which: Sequence,
        block: Option<PathRef<'a>>,
    },
}

// The name with a text of its own, if there is one.
fn owned_name(alloc: Global, name: &Option<IdentRef<'_>>) -> Result<Option<Ident>, AllocError>
    ensures { IfOk result (λ owned. owned ≡ name.now) }
{
    match name {
        Some(name) => Ok(Some(name.to_ident(alloc)?)),
        None => Ok(None),
    }
}

// The block with a text of its own, if there is one.
fn owned_block(alloc: Global, block: &Option<PathRef<'_>>) -> Result<Option<Path>, AllocError>
    ensures { IfOk result (λ owned. owned ≡ block.now) }
{
    match block {
        Some(path) => Ok(Some(path.to_path(alloc)?)),
        None => Ok(None),
    }
}

impl<'a> ItemLine<'a> {
    fn to_line(&self, alloc: Global) -> Result<Line, AllocError>
        ensures { IfOk result (λ line. line ≡ item_said self.now) }
    {
        let path = self.path.to_path(alloc)?;
        let map = owned_name(alloc, &self.map)?;
        Ok(self.item.line(path, self.first, self.second, map))
    }
}

impl<'a> LineRef<'a> {
    /// The line with paths and names of its own.
    pub fn into_line(self, alloc: Global) -> Result<Line, AllocError>
        ensures { IfOk result (λ line. line ≡ line_said self.entry) }
    {
        match self {
            LineRef::Blank => Ok(Line::Blank),
            LineRef::OnItem(line) => line.to_line(alloc),
            LineRef::BurstWrite {
                mem,
                first,
                values,
                map,
            } => {
                let mem = mem.to_path(alloc)?;
                let map = owned_name(alloc, &map)?;
                Ok(Line::BurstWrite {
                    mem,
                    first,
                    values,
                    map,
                })
            }
            LineRef::Reset { kind } => {
                let kind = kind.to_ident(alloc)?;
                Ok(Line::Reset { kind })
            }
            LineRef::Seq { which, block } => {
                let block = owned_block(alloc, &block)?;
                Ok(Line::Seq { which, block })
            }
        }
    }
}
