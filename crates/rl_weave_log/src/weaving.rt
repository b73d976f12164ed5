//! The lines of a woven script, one after another.
ghost use Rattle.std.specs.Prelude.{◌≡◌, map as each, true, false, Some};
ghost use Rattle.rl_weave_log.specs.Prelude.{IsGathering, IsReady, IsSameChip, LeavesLines, WeavesLine, WeavesLines};
ghost use Rattle.rl_weave_log.specs.Prelude.{WeavesThrough, input_of, moment_of, stop_of};
ghost use Rattle.rl_weave_log.specs.Stage.{CanTake, StaysAt, setting_on};

use crate::script::{Stage, WovenScript};
use crate::taking::{end_script, take_in_handed};
use rl_access::Model;
use rl_bus::{Adapter, Adapters, Device};
use rl_log::{Counts, Status};
use rl_play::{Log, Turn, is_end, take_line};
use rl_report::{LineReader, Source};
use std::alloc::Global;

/// Reads the next line and takes it in.
fn weave_line<S: Source, D: Device, L: Log>(
    alloc: Global,
    number: u64,
    script: &mut WovenScript,
    stage: &mut Stage<'_, D, L>,
    lines: &mut LineReader,
    source: &mut S,
) -> Turn
    requires line { CanTake D.Device (each standing stage.old.adapters.now.items) script.old stage.old lines.old }
    ensures stays { StaysAt D.Device (each standing stage.new.adapters.now.items) stage.old stage.new }
    ensures group { result ≡ Turn.Next → IsGathering stage.new.model.now script.new.weave }
    ensures weaves { WeavesLine number
        (setting_on D.Device L.Sink (each standing stage.old.adapters.now.items) script.old stage.old)
        (input_of lines.old (S.left source.old))
        (setting_on D.Device L.Sink (each standing stage.new.adapters.now.items) script.new stage.new)
        (input_of lines.new (S.left source.new)) (S.left source.new) lines.new.ended result }
    ensures leaves { LeavesLines L.Sink (L.is_out stage.new.out.now)
        lines.old lines.new (S.faults source.old) (S.faults source.new) stage.old.out.now stage.new.out.now result }
{
    let got = match take_line(lines, source, stage.out) {
        Ok(got) => got,
        Err(status) => return Turn::Stop(status),
    };
    if is_end(got) {
        return Turn::Stop(end_script(script, stage));
    }
    let line = lines.line();
    take_in_handed(alloc, number, got, line, script, stage)
}

/// Takes in the lines that are left, one after another.
fn weave_all<S: Source, D: Device, L: Log>(
    alloc: Global,
    script: &mut WovenScript,
    stage: &mut Stage<'_, D, L>,
    lines: &mut LineReader,
    source: &mut S,
) -> Status
    requires line { CanTake D.Device (each standing stage.old.adapters.now.items) script.old stage.old lines.old }
    ensures stays { StaysAt D.Device (each standing stage.new.adapters.now.items) stage.old stage.new }
    ensures weaves { WeavesLines
        (setting_on D.Device L.Sink (each standing stage.old.adapters.now.items) script.old stage.old)
        (input_of lines.old (S.left source.old)) (S.left source.new)
        (setting_on D.Device L.Sink (each standing stage.new.adapters.now.items) script.new stage.new) result }
    ensures leaves { LeavesLines L.Sink (L.is_out stage.new.out.now) lines.old lines.new
        (S.faults source.old) (S.faults source.new) stage.old.out.now stage.new.out.now (Turn.Stop result) }
{
    let mut number = 1u64;
    loop {
        match weave_line(alloc, number, script, stage, lines, source) {
            Turn::Next => number += 1,
            Turn::Stop(status) => return status,
        }
    }
}

/// Runs the lines that are left, group by group, with the words of each group woven by a generator that begins at a
/// number, and writes their log and the last line to a sink that may keep bytes back. What was written of a group is
/// out before the source is read again.
///
/// # Examples
///
/// The lines are `other-write a 0x1234` and `other-read b`, of registers of two bytes over a bus of one, and n is 1:
///
/// ```text
///   bus w 0x0 0x34 1 #0 ok
///   bus r 0x2 0x00 1 #1 ok
///   bus w 0x1 0x12 1 #2 ok
/// other-write a 0x1234 @bus: ok mirror 0x1234
///   bus r 0x3 0x00 1 #3 ok
/// other-read b @bus: ok 0x0000 mirror 0x0000
/// end: 2 events, 0 differences, 0 bus errors
/// ```
pub fn weave_lines<S: Source, D: Device, L: Log>(
    alloc: Global,
    n: u64,
    model: &mut Model,
    device: &mut D,
    adapters: &mut Adapters,
    lines: &mut LineReader,
    source: &mut S,
    out: &mut L,
    counts: &mut Counts,
) -> Status
    requires ready { IsReady model.old (each standing adapters.old.items) (D.state device.old) }
    requires found { lines.old.found ≡ true }
    requires going { lines.old.refused ≡ false }
    ensures ready { IsReady model.new (each standing adapters.new.items) (D.state device.new) }
    ensures parts { IsSameChip model.old model.new }
    ensures weaves { WeavesThrough n
        (moment_of standing D.state L.written model.old adapters.old.items device.old out.old counts.old)
        (input_of lines.old (S.left source.old)) (S.left source.new)
        (moment_of standing D.state L.written model.new adapters.new.items device.new out.new counts.new) result }
    ensures leaves { LeavesLines L.Sink (L.is_out out.new)
        lines.old lines.new (S.faults source.old) (S.faults source.new) out.old out.new (Turn.Stop result) }
{
    let Ok(mut script) = WovenScript::build(alloc, n) else {
        return Status::Memory;
    };
    let mut stage = Stage {
        model,
        device,
        adapters,
        out,
        counts,
    };
    weave_all(alloc, &mut script, &mut stage, lines, source)
}
