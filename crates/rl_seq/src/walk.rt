//! The walk of every sequence: over registers or memories, over the places of each, and over the turns at a place.
ghost use Rattle.std.specs.Prelude.{◌<◌, map, length, IfSome};
ghost use Rattle.rl_seq.specs.Plan.{each_below};
ghost use Rattle.rl_seq.specs.Running.{GoesOn, IsReadyAt, stage_at};
ghost use Rattle.rl_seq.specs.Sequences.{items_of, walk, visit};
ghost use Rattle.rl_seq.specs.Visits.{IsVisit, turns_of, turn_of, turns};

use crate::choice::first_place;
use crate::running::Running;
use crate::sequence::Sequence;
use crate::step::perform_step;
use crate::visit::Visit;
use rl_access::Recorder;
use rl_bus::{Adapter, Device, Failed};

/// Goes over the registers, or memories, that the sequence chooses.
pub(crate) fn walk<D: Device, R: Recorder>(
    sequence: Sequence,
    block: Option<u32>,
    run: &mut Running<'_, D, R>,
) -> Result<(), Failed>
    requires ready { IsReadyAt (stage_at D.Device (map standing run.old.adapters.now.items) run.old) }
    requires block { IfSome block (λ b. b < run.old.model.now.chip.blocks) }
    ensures { GoesOn R.Recorder D.Device
        (map standing run.old.adapters.now.items) (map standing run.new.adapters.now.items) run.old run.new
        (walk sequence run.old.model.now.chip run.old.model.now.layout block) result }
{
    for number in 0..sequence.items(run.model.chip()) {
        if !sequence.is_chosen(run.model.chip(), run.model.layout(), block, number) {
            continue;
        }
        visit_places(sequence, number, run)?;
    }
    Ok(())
}

// Goes over the places of a register or memory: from its first one to its last.
fn visit_places<D: Device, R: Recorder>(
    sequence: Sequence,
    number: u32,
    run: &mut Running<'_, D, R>,
) -> Result<(), Failed>
    requires ready { IsReadyAt (stage_at D.Device (map standing run.old.adapters.now.items) run.old) }
    requires number { number < items_of sequence run.old.model.now.chip }
    ensures { GoesOn R.Recorder D.Device
        (map standing run.old.adapters.now.items) (map standing run.new.adapters.now.items) run.old run.new
        (each_below (length run.old.model.now.layout.places)
        (visit sequence run.old.model.now.chip run.old.model.now.layout number)) result }
{
    let item = sequence.item(number);
    let first = first_place(run.model.layout(), item);
    let end = run.model.layout().end_of(item);
    for place in first..end {
        if !sequence.visits(run.model.layout(), number, place) {
            continue;
        }
        take_turns(Visit::of(sequence, run.model, number, place), run)?;
    }
    Ok(())
}

// Does what the sequence does at a place.
fn take_turns<D: Device, R: Recorder>(
    visit: Visit,
    run: &mut Running<'_, D, R>,
) -> Result<(), Failed>
    requires ready { IsReadyAt (stage_at D.Device (map standing run.old.adapters.now.items) run.old) }
    requires visit { IsVisit run.old.model.now.chip run.old.model.now.layout visit }
    ensures { GoesOn R.Recorder D.Device
        (map standing run.old.adapters.now.items) (map standing run.new.adapters.now.items) run.old run.new
        (turns run.old.model.now.chip run.old.model.now.layout visit) result }
{
    for turn in 0..visit.turns(run.model) {
        take_turn(visit, turn, run)?;
    }
    Ok(())
}

fn take_turn<D: Device, R: Recorder>(
    visit: Visit,
    turn: u32,
    run: &mut Running<'_, D, R>,
) -> Result<(), Failed>
    requires ready { IsReadyAt (stage_at D.Device (map standing run.old.adapters.now.items) run.old) }
    requires visit { IsVisit run.old.model.now.chip run.old.model.now.layout visit }
    requires turn { turn < turns_of run.old.model.now.chip run.old.model.now.layout visit }
    ensures { GoesOn R.Recorder D.Device
        (map standing run.old.adapters.now.items) (map standing run.new.adapters.now.items) run.old run.new
        (turn_of run.old.model.now.chip run.old.model.now.layout visit turn) result }
{
    for part in 0..visit.parts(run.model, turn) {
        let Some(op) = visit.part(run.model, turn, part) else {
            continue;
        };
        perform_step(
            run.model,
            run.device,
            run.adapters,
            op,
            run.recorder,
            &mut run.tally,
        )?;
    }
    Ok(())
}
