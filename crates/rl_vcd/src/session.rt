// What a line does on the device model, its log and its dump.
ghost use Rattle.std.specs.Prelude.{◌≡◌, ◌<◌, map as each, IfSome, MatchResult, None, Ok, Err};
ghost use Rattle.rl_access.specs.Model.{IsReady};
ghost use Rattle.rl_log.specs.Entry.{sequence_of};
ghost use Rattle.rl_play.specs.Work.{asked, one_op};
ghost use Rattle.rl_script.specs.Said.{line_said};
ghost use Rattle.rl_script.specs.declared.line.Line.TheVariants as say;
ghost use Rattle.rl_seq.specs.Stage.{IsRunOf, stage_of};
ghost use Rattle.rl_vcd.specs.Playing.{CanRun, RunsLine};

use crate::recorder::Drawing;
use crate::sequence::{put_sequence_begin, put_sequence_end};
use rl_access::{Event, Model, Recorder, Tally, burst_read, burst_write, perform_into};
use rl_bench::Bench;
use rl_bus::{Adapter, Adapters, Device};
use rl_log::{Counts, LineRefusal};
use rl_play::{Log, block_asked, map_asked, mem_at, op_of};
use rl_report::{Failed, Sink};
use rl_script::{IdentRef, Item, ItemLine, LineRef, PathRef, Sequence, Values};

/// What a script is played on: the registers and the device of a session, and where its events go.
#[derive(Drop)]
pub(crate) struct Session<'a, 'l, 'd, L, K: Sink> {
    pub(crate) model: &'a mut Model,
    pub(crate) bench: &'a mut Bench,
    pub(crate) pen: Drawing<'l, 'd, L, K>,
}

// How a line went: none where it was run, or why it is refused.
type Ran = Result<Option<LineRefusal>, Failed>;

// Runs a sequence: its events are recorded as they come.
fn record_sequence<D: Device, R: Recorder>(
    model: &mut Model,
    device: &mut D,
    adapters: &mut Adapters,
    which: Sequence,
    block: Option<u32>,
    rec: &mut R,
) -> Result<Tally, Failed>
    requires ready { IsReady model.old (each standing adapters.old.items) (D.state device.old) }
    requires block { IfSome block (λ b. b < model.old.chip.blocks) }
    ensures { IsRunOf R.Recorder (sequence_of which) block
        (stage_of standing D.Device model.old adapters.old.items device.old rec.old)
        (stage_of standing D.Device model.new adapters.new.items device.new rec.new) result }
{
    match which {
        Sequence::HwReset => rl_seq::hw_reset(model, device, adapters, block, rec),
        Sequence::BitBash => rl_seq::bit_bash(model, device, adapters, block, rec),
        Sequence::Access => rl_seq::access_test(model, device, adapters, block, rec),
        Sequence::Shared => rl_seq::shared_access(model, device, adapters, block, rec),
        Sequence::MemWalk => rl_seq::mem_walk(model, device, adapters, block, rec),
    }
}

// How a line went whose names are there, by how its work went.
fn ran<T: Copy>(work: Result<T, Failed>) -> Ran
    ensures { MatchResult work (λ done. result ≡ Ok None) (λ failed. result ≡ Err failed) }
{
    match work {
        Ok(_) => Ok(None),
        Err(failed) => Err(failed),
    }
}

impl<L: Log, K: Sink> Session<'_, '_, '_, L, K> {
    // Runs a line that is a burst of writes.
    fn write_burst(
        &mut self,
        adapters: &mut Adapters,
        mem: &PathRef<'_>,
        first: u64,
        values: &Values,
        name: &Option<IdentRef<'_>>,
    ) -> Ran
        requires { CanRun (each standing adapters.old.items) self.old }
        ensures { RunsLine L.Sink K.Sink
            (asked self.old.model.now (Ok (say.BurstWrite mem.now first values.now name.now)))
            (each standing adapters.old.items) (each standing adapters.new.items) self.old self.new result }
    {
        let Some(mem) = mem_at(self.model, mem) else {
            return Ok(Some(LineRefusal::NoSuchName));
        };
        let Some(through) = map_asked(self.model, name) else {
            return Ok(Some(LineRefusal::NoSuchName));
        };
        let values = values.items();
        ran(burst_write(
            self.model,
            self.bench,
            adapters,
            mem,
            through,
            first,
            values,
            &mut self.pen,
        ))
    }

    // Runs a line that is a burst of reads.
    fn read_burst(&mut self, adapters: &mut Adapters, line: &ItemLine<'_>) -> Ran
        requires { CanRun (each standing adapters.old.items) self.old }
        ensures { RunsLine L.Sink K.Sink
            (asked self.old.model.now (Ok (say.BurstRead line.now.path line.now.first line.now.second line.now.map)))
            (each standing adapters.old.items) (each standing adapters.new.items) self.old self.new result }
    {
        let Some(mem) = mem_at(self.model, &line.path) else {
            return Ok(Some(LineRefusal::NoSuchName));
        };
        let Some(through) = map_asked(self.model, &line.map) else {
            return Ok(Some(LineRefusal::NoSuchName));
        };
        ran(burst_read(
            self.model,
            self.bench,
            adapters,
            mem,
            through,
            line.first,
            line.second,
            &mut self.pen,
        ))
    }

    // Runs a line that is a sequence, with the lines around its events.
    fn sequence(
        &mut self,
        adapters: &mut Adapters,
        which: Sequence,
        path: &Option<PathRef<'_>>,
    ) -> Ran
        requires { CanRun (each standing adapters.old.items) self.old }
        ensures { RunsLine L.Sink K.Sink (asked self.old.model.now (Ok (say.Seq which path.now)))
            (each standing adapters.old.items) (each standing adapters.new.items) self.old self.new result }
    {
        let Some(block) = block_asked(self.model, path) else {
            return Ok(Some(LineRefusal::NoSuchName));
        };
        put_sequence_begin(self.pen.log, which, path)?;
        let tally = record_sequence(
            self.model,
            self.bench,
            adapters,
            which,
            block,
            &mut self.pen,
        )?;
        ran(put_sequence_end(self.pen.log, which, path, &Counts::of(&tally)))
    }

    // Runs a line that is one operation.
    fn operation(&mut self, adapters: &mut Adapters, line: &LineRef<'_>) -> Ran
        requires { CanRun (each standing adapters.old.items) self.old }
        ensures { RunsLine L.Sink K.Sink (one_op self.old.model.now (line_said line.now))
            (each standing adapters.old.items) (each standing adapters.new.items) self.old self.new result }
    {
        let Some(op) = op_of(self.model, line) else {
            return Ok(Some(LineRefusal::NoSuchName));
        };
        let mut event = Event::blank();
        perform_into(self.model, self.bench, adapters, op, &mut event);
        ran(self.pen.step(self.model, &event))
    }

    /// Runs a line, draws its events and writes its log. Answers why it is refused, if a name isn't there.
    pub(crate) fn run_line(&mut self, adapters: &mut Adapters, line: &LineRef<'_>) -> Ran
        requires { CanRun (each standing adapters.old.items) self.old }
        ensures { RunsLine L.Sink K.Sink (asked self.old.model.now (Ok (line_said line.now)))
            (each standing adapters.old.items) (each standing adapters.new.items) self.old self.new result }
    {
        match line {
            LineRef::Blank => Ok(None),
            LineRef::BurstWrite {
                mem,
                first,
                values,
                map,
            } => self.write_burst(adapters, mem, *first, values, map),
            LineRef::OnItem(item) => match item.item {
                Item::BurstRead => self.read_burst(adapters, item),
                _ => self.operation(adapters, line),
            },
            LineRef::Reset { .. } => self.operation(adapters, line),
            LineRef::Seq { which, block } => self.sequence(adapters, *which, block),
        }
    }
}
