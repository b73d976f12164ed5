// Where flaws are told, and the single flaws of a place.
ghost use Rattle.std.specs.Prelude.{◌≡◌, All, IfOk};
ghost use Rattle.rl_flaw.specs.Flaws.{IsFlawOf};
ghost use Rattle.rl_grade.specs.Place.{IsPlaceIn, flaws_at};

use crate::flaws::{field_flaws, item_flaws, session_flaws};
use rl_bench::Flaw;
use rl_desc::Desc;
use rl_model::Item;
use std::alloc::{AllocError, Global};

/// Where a flaw is reported.
#[derive(Clone, Copy, Debug, PartialEq, Eq)]
pub enum Place {
    /// At a register or memory: it is deaf, or one of its addresses fails.
    OfItem(Item),
    /// At a field.
    OfField(u32),
    /// At the session as a whole: one of its items fails.
    OfSession,
}

/// The single flaws of a place, where the session sends so many bus items.
///
/// # Errors
///
/// Want of memory.
pub fn flaws_at(
    alloc: Global,
    desc: &Desc,
    items: u64,
    place: Place,
) -> Result<Vec<Flaw>, AllocError>
    requires place { IsPlaceIn desc.now.chip place }
    ensures flaws { IfOk result (λ flaws. flaws.items ≡ flaws_at desc.now items place) }
    ensures each { IfOk result (λ flaws. All (IsFlawOf desc.now.chip desc.now.layout) flaws.items) }
{
    // Asked for their size, both are known to be sound.
    let _sizes = (desc.chip.regs(), desc.layout.ports());
    match place {
        Place::OfItem(item) => item_flaws(alloc, &desc.chip, &desc.layout, item),
        Place::OfField(field) => field_flaws(alloc, &desc.chip, field),
        Place::OfSession => session_flaws(alloc, items),
    }
}
