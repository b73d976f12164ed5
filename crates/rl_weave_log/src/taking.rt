//! What comes of a line of a woven script that was read.
ghost use Rattle.std.specs.Prelude.{◌≡◌, ◌≢◌, ◌≤◌, map as each, true, Some, Ok, Err, MatchResult};
ghost use Rattle.rl_weave_log.specs.Prelude.{EndsGroup, IsCounted, Leaves, NotByCounts, Takes, Tells, heard, is_blank};
ghost use Rattle.rl_weave_log.specs.Prelude.{line_said, read_of, refused_woven_text, said_by};
ghost use Rattle.rl_weave_log.specs.Stage.{CanGather, CanWeave, StaysAt, TurnsOn, setting_on};

use crate::adding::add_line;
use crate::group::run_group;
use crate::refusal::{WovenRefusal, put_woven_refused};
use crate::script::{Stage, WovenScript};
use rl_bus::{Adapter, Device};
use rl_log::{LineRefusal, Status};
use rl_play::{Log, MOST_LINES, Turn, end, is_too_long, refusal_of};
use rl_report::{Failed, Got};
use rl_script::{LineFault, LineRef, read_line_ref};
use std::alloc::Global;

/// Ends a script at a line that is refused.
fn refuse<L: Log>(number: u64, refusal: WovenRefusal, out: &mut L) -> Status
    ensures tells { Tells result Status.Refused
        (L.written out.old) (L.written out.new) (refused_woven_text number refusal) }
    ensures counted { NotByCounts (Some result) }
    ensures leaves { Leaves L.Sink 0 0 out.old out.new (Some result) }
{
    match put_woven_refused(out, number, refusal) {
        Ok(()) => Status::Refused,
        Err(Failed) => Status::SinkFault,
    }
}

/// Ends a script: its last group, and the last line.
pub(crate) fn end_script<D: Device, L: Log>(
    script: &mut WovenScript,
    stage: &mut Stage<'_, D, L>,
) -> Status
    requires weaving { CanWeave D.Device (each standing stage.old.adapters.now.items) script.old stage.old }
    ensures ends { EndsGroup
        (setting_on D.Device L.Sink (each standing stage.old.adapters.now.items) script.old stage.old)
        (setting_on D.Device L.Sink (each standing stage.new.adapters.now.items) script.new stage.new) result }
    ensures counted { IsCounted result stage.new.counts.now }
    ensures stays { StaysAt D.Device (each standing stage.new.adapters.now.items) stage.old stage.new }
    ensures leaves { Leaves L.Sink 0 0 stage.old.out.now stage.new.out.now (Some result) }
{
    match run_group(script, stage) {
        Ok(()) => end(stage.counts, stage.out),
        Err(Failed) => Status::SinkFault,
    }
}

fn is_blank(line: &LineRef<'_>) -> bool
    ensures { result ≡ is_blank (line_said line.now) }
{
    matches!(line, LineRef::Blank)
}

/// Runs the group that a blank line ends, or adds an access to the group.
fn take_in<D: Device, L: Log>(
    number: u64,
    line: &LineRef<'_>,
    script: &mut WovenScript,
    stage: &mut Stage<'_, D, L>,
) -> Turn
    requires gathering { CanGather D.Device (each standing stage.old.adapters.now.items) script.old stage.old }
    ensures turn { Takes number (Ok (line_said line.now))
        (setting_on D.Device L.Sink (each standing stage.old.adapters.now.items) script.old stage.old)
        (setting_on D.Device L.Sink (each standing stage.new.adapters.now.items) script.new stage.new) result }
    ensures stays { TurnsOn D.Device L.Sink (each standing stage.new.adapters.now.items) script.new
        stage.old stage.new result }
{
    if is_blank(line) {
        return match run_group(script, stage) {
            Ok(()) => Turn::Next,
            Err(Failed) => Turn::Stop(Status::SinkFault),
        };
    }
    match add_line(&mut script.weave, stage.model, line) {
        Ok(()) => Turn::Next,
        Err(refusal) => Turn::Stop(refuse(number, refusal, stage.out)),
    }
}

/// Takes a line in that was read, or ends the script at it.
fn take_in_read<D: Device, L: Log>(
    number: u64,
    line: &[u8],
    read: &Result<LineRef<'_>, LineFault>,
    script: &mut WovenScript,
    stage: &mut Stage<'_, D, L>,
) -> Turn
    requires gathering { CanGather D.Device (each standing stage.old.adapters.now.items) script.old stage.old }
    requires read { MatchResult read.now
        (λ l. read_of line.now ≡ Ok (line_said l))
        (λ fault. fault ≢ LineFault.Memory → read_of line.now ≡ Err fault) }
    ensures turn { Takes number (said_by (read_of line.now))
        (setting_on D.Device L.Sink (each standing stage.old.adapters.now.items) script.old stage.old)
        (setting_on D.Device L.Sink (each standing stage.new.adapters.now.items) script.new stage.new) result }
    ensures stays { TurnsOn D.Device L.Sink (each standing stage.new.adapters.now.items) script.new
        stage.old stage.new result }
{
    match read {
        Ok(line) => take_in(number, line, script, stage),
        Err(fault) => match refusal_of(*fault) {
            Some(refusal) => Turn::Stop(refuse(number, WovenRefusal::Line(refusal), stage.out)),
            None => Turn::Stop(Status::Memory),
        },
    }
}

/// Takes a line in that was handed out, or ends the script at it.
pub(crate) fn take_in_handed<D: Device, L: Log>(
    alloc: Global,
    number: u64,
    got: Got,
    line: &[u8],
    script: &mut WovenScript,
    stage: &mut Stage<'_, D, L>,
) -> Turn
    requires gathering { CanGather D.Device (each standing stage.old.adapters.now.items) script.old stage.old }
    ensures short { result ≡ Turn.Next → got ≢ Got.TooLong }
    ensures last { result ≡ Turn.Next → number ≤ MOST_LINES }
    ensures turn { Takes number (heard number got line.now)
        (setting_on D.Device L.Sink (each standing stage.old.adapters.now.items) script.old stage.old)
        (setting_on D.Device L.Sink (each standing stage.new.adapters.now.items) script.new stage.new) result }
    ensures stays { TurnsOn D.Device L.Sink (each standing stage.new.adapters.now.items) script.new
        stage.old stage.new result }
{
    if number > MOST_LINES {
        let refusal = WovenRefusal::Line(LineRefusal::TooManyLines);
        return Turn::Stop(refuse(number, refusal, stage.out));
    }
    if is_too_long(got) {
        let refusal = WovenRefusal::Line(LineRefusal::TooLong);
        return Turn::Stop(refuse(number, refusal, stage.out));
    }
    let read = read_line_ref(alloc, line);
    take_in_read(number, line, &read, script, stage)
}
