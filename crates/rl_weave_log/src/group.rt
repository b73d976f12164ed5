//! The words of a group.
ghost use Rattle.std.specs.Prelude.{◌≡◌, ◌<◌, true, map as each, length, IsTrue, OnOk};
ghost use Rattle.rl_weave_log.specs.Prelude.{EventFits, IsGathering, IsWeave, IsWeaveOn, ItemFits, PutsText};
ghost use Rattle.rl_weave_log.specs.Prelude.{SinkStays, Writes, counted_at_end, event_told, group, step_text};
ghost use Rattle.rl_weave_log.specs.Prelude.{word_drawn, words, words_left};
ghost use Rattle.rl_weave_log.specs.Stage.{CanWeave, StaysAt, setting_on};

use crate::script::{Stage, WovenScript};
use rl_access::{Event, Model};
use rl_bus::{Adapter, Device};
use rl_log::Counts;
use rl_play::Log;
use rl_report::{Failed, write_event_line, write_item};
use rl_weave::Sent;

/// 64 accesses of 8 words have so many: no access is open after them.
const MOST_WORDS: u32 = 512;

/// Writes the item that was sent and, where it ended its access, the line of the event.
fn put_step<L: Log>(model: &Model, sent: &Sent, event: &Event, out: &mut L) -> Result<(), Failed>
    requires item { ItemFits model.now.layout sent.now.item }
    requires event { IsTrue sent.now.over → EventFits model.now event.now }
    ensures { PutsText L.Sink out.old out.new
        (step_text model.now sent.now.item (event_told sent.now.over event.now)) result }
{
    write_item(out, model, &sent.item)?;
    if sent.over {
        write_event_line(out, model, event)
    } else {
        Ok(())
    }
}

/// Counts the event of an access that is over.
fn count_end(sent: &Sent, event: &Event, counts: &mut Counts)
    ensures { counts.new ≡ counted_at_end counts.old (event_told sent.now.over event.now) }
{
    if sent.over {
        counts.count(event);
    }
}

/// Sends the next word of the open access that is drawn, and writes its log. The event is for an access that is then
/// over.
fn run_word<D: Device, L: Log>(
    script: &mut WovenScript,
    stage: &mut Stage<'_, D, L>,
    event: &mut Event,
) -> Result<(), Failed>
    requires open { 0 < length script.old.weave.still_open }
    requires weaving { CanWeave D.Device (each standing stage.old.adapters.now.items) script.old stage.old }
    ensures weave { IsWeaveOn stage.new.model.now script.new.weave }
    ensures sound { IsWeave script.new.weave }
    ensures fewer { words_left script.new.weave < words_left script.old.weave }
    ensures writes { Writes word_drawn
        (setting_on D.Device L.Sink (each standing stage.old.adapters.now.items) script.old stage.old)
        (setting_on D.Device L.Sink (each standing stage.new.adapters.now.items) script.new stage.new) result }
    ensures stays { StaysAt D.Device (each standing stage.new.adapters.now.items) stage.old stage.new }
    ensures sink { SinkStays L.Sink stage.old.out.now stage.new.out.now result }
{
    let drawn = script.draws.draw(script.weave.open_count());
    let which = script.weave.nth_open(drawn);
    let sent = script
        .weave
        .step_into(stage.model, stage.device, stage.adapters, which, event);
    count_end(&sent, event, stage.counts);
    put_step(stage.model, &sent, event, stage.out)
}

/// Sends words until no access is open.
fn run_words<D: Device, L: Log>(
    script: &mut WovenScript,
    stage: &mut Stage<'_, D, L>,
) -> Result<(), Failed>
    requires weaving { CanWeave D.Device (each standing stage.old.adapters.now.items) script.old stage.old }
    ensures weave { IsWeaveOn stage.new.model.now script.new.weave }
    // So many words are enough.
    ensures closed { OnOk result (length script.new.weave.still_open ≡ 0) }
    ensures writes { Writes (words 512)
        (setting_on D.Device L.Sink (each standing stage.old.adapters.now.items) script.old stage.old)
        (setting_on D.Device L.Sink (each standing stage.new.adapters.now.items) script.new stage.new) result }
    ensures stays { StaysAt D.Device (each standing stage.new.adapters.now.items) stage.old stage.new }
    ensures sink { SinkStays L.Sink stage.old.out.now stage.new.out.now result }
{
    // The call tells that the model is sound.
    let _ = stage.model.layout();
    let mut event = Event::blank();
    for k in 0..MOST_WORDS {
        if script.weave.open_count() == 0 {
            return Ok(());
        }
        run_word(script, stage, &mut event)?;
    }
    Ok(())
}

/// Runs a group, and writes its log. The next one is then empty.
pub(crate) fn run_group<D: Device, L: Log>(
    script: &mut WovenScript,
    stage: &mut Stage<'_, D, L>,
) -> Result<(), Failed>
    requires weaving { CanWeave D.Device (each standing stage.old.adapters.now.items) script.old stage.old }
    ensures group { OnOk result (IsGathering stage.new.model.now script.new.weave) }
    ensures writes { Writes group
        (setting_on D.Device L.Sink (each standing stage.old.adapters.now.items) script.old stage.old)
        (setting_on D.Device L.Sink (each standing stage.new.adapters.now.items) script.new stage.new) result }
    ensures stays { StaysAt D.Device (each standing stage.new.adapters.now.items) stage.old stage.new }
    ensures sink { SinkStays L.Sink stage.old.out.now stage.new.out.now result }
{
    run_words(script, stage)?;
    script.weave.clear();
    Ok(())
}
