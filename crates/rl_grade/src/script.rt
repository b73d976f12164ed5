// A script as tasks.
ghost use Rattle.std.specs.Prelude.{◌≡◌, ◌≢◌, ◌≤◌, ◌++◌, true, false, length, IfOk, OnOk, IfErr, IfSome, Ok, Err};
ghost use Rattle.std.specs.Prelude.{OnErr, option_map};
ghost use Rattle.rl_log.specs.Named.{op_named};
ghost use Rattle.rl_play.specs.Prelude.{Rose, heard, input_of, line_said, read_of, said_by};
ghost use Rattle.rl_report.specs.Lines.{lines_of};
ghost use Rattle.rl_script.specs.Said.{item_said};
ghost use Rattle.rl_script.specs.declared.line.Line.TheVariants as say;
ghost use Rattle.rl_grade.specs.Job.{JobFits, TasksFit};
ghost use Rattle.rl_grade.specs.Reading.{Answers, Reads, TurnFits, refused_line};
ghost use Rattle.rl_grade.specs.Script.{job_asked, job_named, named_there, tasks_at, tasks_from};

use crate::job::{Job, Task};
use rl_access::Model;
use rl_log::LineRefusal;
use rl_play::{MOST_LINES, block_asked, is_end, is_too_long, map_asked, mem_at, op_of, refusal_of};
use rl_report::{Got, LineReader, Source};
use rl_script::{IdentRef, Item, ItemLine, LineRef, PathRef, Sequence, Values, read_line_ref};
use std::alloc::Global;

/// Why a script gives no tasks.
#[derive(Clone, Copy, Debug, PartialEq, Eq)]
pub enum ScriptFault {
    /// A run refuses the line of this number, which counts from 1.
    Line { number: u64, why: LineRefusal },
    /// The source failed.
    Source,
    /// Memory ran out.
    Memory,
}

// Why a line gives no job.
#[derive(Clone, Copy)]
enum Unread {
    Refused(LineRefusal),
    Memory,
}

// What comes of the next line.
#[derive(Drop)]
enum Turn {
    // What it asks for, if anything.
    Line(Option<Job>),
    // There is no further line.
    End,
}

// Values to consecutive locations, if both names are there.
fn write_burst(
    model: &Model,
    mem: &PathRef<'_>,
    first: u64,
    values: Values,
    map: &Option<IdentRef<'_>>,
) -> Option<Job>
    ensures named { result ≡ job_named model.now (say.BurstWrite mem.now first values map.now) }
    ensures fits { IfSome result (JobFits model.now.chip (length model.now.layout.maps)) }
{
    match (mem_at(model, mem), map_asked(model, map)) {
        (Some(mem), Some(map)) => Some(Job::BurstWrite {
            mem,
            map,
            first,
            values,
        }),
        _ => None,
    }
}

// So many consecutive locations, if both names are there.
fn read_burst(model: &Model, line: &ItemLine<'_>) -> Option<Job>
    ensures named { result ≡ job_named model.now
        (say.BurstRead line.now.path line.now.first line.now.second line.now.map) }
    ensures fits { IfSome result (JobFits model.now.chip (length model.now.layout.maps)) }
{
    Some(Job::BurstRead {
        mem: mem_at(model, &line.path)?,
        map: map_asked(model, &line.map)?,
        first: line.first,
        count: line.second,
    })
}

// One operation, if its names are there.
fn one(model: &Model, line: &LineRef<'_>) -> Option<Job>
    ensures named { result ≡ option_map Job.One (op_named model.now (line_said line.now)) }
    ensures fits { IfSome result (JobFits model.now.chip (length model.now.layout.maps)) }
{
    Some(Job::One {
        op: op_of(model, line)?,
    })
}

fn item_job(model: &Model, line: ItemLine<'_>) -> Option<Job>
    ensures named { result ≡ job_named model.now (item_said line.entry) }
    ensures fits { IfSome result (JobFits model.now.chip (length model.now.layout.maps)) }
{
    match line.item {
        Item::BurstRead => read_burst(model, &line),
        _ => one(model, &LineRef::OnItem(line)),
    }
}

// A sequence, if its block is there.
fn sequence(model: &Model, which: Sequence, block: &Option<PathRef<'_>>) -> Option<Job>
    ensures named { result ≡ job_named model.now (say.Seq which block.now) }
    ensures fits { IfSome result (JobFits model.now.chip (length model.now.layout.maps)) }
{
    Some(Job::Sequence {
        which,
        block: block_asked(model, block)?,
    })
}

fn there(job: Option<Job>) -> Result<Option<Job>, LineRefusal>
    ensures { result ≡ named_there job }
{
    match job {
        Some(job) => Ok(Some(job)),
        None => Err(LineRefusal::NoSuchName),
    }
}

// What a line asks for, if anything.
fn job_of(model: &Model, line: LineRef<'_>) -> Result<Option<Job>, LineRefusal>
    ensures asked { result ≡ job_asked model.now (Ok (line_said line.entry)) }
    ensures fits { IfOk result (λ job. IfSome job (JobFits model.now.chip (length model.now.layout.maps))) }
{
    match line {
        LineRef::Blank => Ok(None),
        LineRef::BurstWrite {
            mem,
            first,
            values,
            map,
        } => there(write_burst(model, &mem, first, values, &map)),
        LineRef::OnItem(line) => there(item_job(model, line)),
        LineRef::Reset { kind } => there(one(model, &LineRef::Reset { kind })),
        LineRef::Seq { which, block } => there(sequence(model, which, &block)),
    }
}

// What the bytes of a line ask for, if anything.
fn job_read(alloc: Global, model: &Model, line: &[u8]) -> Result<Option<Job>, Unread>
    ensures answers { Answers (job_asked model.now (said_by (read_of line.now))) result }
    ensures fits { IfOk result (λ job. IfSome job (JobFits model.now.chip (length model.now.layout.maps))) }
{
    match read_line_ref(alloc, line) {
        Ok(line) => match job_of(model, line) {
            Ok(job) => Ok(job),
            Err(why) => Err(Unread::Refused(why)),
        },
        Err(fault) => match refusal_of(fault) {
            Some(why) => Err(Unread::Refused(why)),
            None => Err(Unread::Memory),
        },
    }
}

// What the line of that number asks for, if anything, as it was handed out.
fn job_taken(
    alloc: Global,
    model: &Model,
    number: u64,
    got: Got,
    line: &[u8],
) -> Result<Option<Job>, Unread>
    ensures answers { Answers (job_asked model.now (heard number got line.now)) result }
    ensures fits { IfOk result (λ job. IfSome job (JobFits model.now.chip (length model.now.layout.maps))) }
    ensures last { OnOk result (number ≤ MOST_LINES) }
    ensures short { OnOk result (got ≢ Got.TooLong) }
{
    if number > MOST_LINES {
        return Err(Unread::Refused(LineRefusal::TooManyLines));
    }
    if is_too_long(got) {
        return Err(Unread::Refused(LineRefusal::TooLong));
    }
    // An empty line says nothing, and scripts have many.
    if line.is_empty() {
        return Ok(None);
    }
    job_read(alloc, model, line)
}

// Reads the next line, which has that number.
fn next_job<S: Source>(
    alloc: Global,
    model: &Model,
    number: u64,
    lines: &mut LineReader,
    source: &mut S,
) -> Result<Turn, ScriptFault>
    requires found { lines.old.found ≡ true }
    requires going { lines.old.refused ≡ false }
    ensures reads { IfSome (input_of lines.old (S.left source.old))
        (λ bytes. Reads model.now number bytes (input_of lines.new (S.left source.new)) result) }
    ensures fits { IfOk result (TurnFits model.now.chip (length model.now.layout.maps)) }
    ensures found { lines.new.found ≡ true }
    ensures going { OnOk result (lines.new.refused ≡ false) }
    ensures last { IfOk result (λ turn. turn ≢ Turn.End → number ≤ MOST_LINES) }
    ensures source_later { S.faults source.old ≤ S.faults source.new }
    ensures cause { result ≡ Err ScriptFault.Source → Rose (S.faults source.old) (S.faults source.new) }
{
    let Ok(got) = lines.next_line(source) else {
        return Err(ScriptFault::Source);
    };
    if is_end(got) {
        return Ok(Turn::End);
    }
    match job_taken(alloc, model, number, got, lines.line()) {
        Ok(job) => Ok(Turn::Line(job)),
        Err(Unread::Refused(why)) => Err(ScriptFault::Line { number, why }),
        Err(Unread::Memory) => Err(ScriptFault::Memory),
    }
}

// Appends what the line of that number asks for, if anything.
fn push_job(tasks: &mut Vec<Task>, number: u64, job: Option<Job>) -> Result<(), ScriptFault>
    ensures more { OnOk result (tasks.new.items ≡ tasks.old.items ++ tasks_at number job) }
    ensures full { OnErr result (result ≡ Err ScriptFault.Memory) }
{
    let Some(job) = job else {
        return Ok(());
    };
    match tasks.push(Task { line: number, job }) {
        Ok(()) => Ok(()),
        Err(_) => Err(ScriptFault::Memory),
    }
}

/// The tasks of the lines after the head of a session: what a run would do, line by line. A blank line and a comment
/// give none. The names are those of the model's chip and layout.
///
/// # Errors
///
/// The first line that a run refuses, and why; a fault of the source; running out of memory.
pub fn read_script<S: Source>(
    alloc: Global,
    model: &Model,
    lines: &mut LineReader,
    source: &mut S,
) -> Result<Vec<Task>, ScriptFault>
    requires found { lines.old.found ≡ true }
    requires going { lines.old.refused ≡ false }
    // However the source is cut into reads.
    ensures tasks { IfOk result (λ tasks. IfSome (input_of lines.old (S.left source.old))
        (λ bytes. tasks_from model.now 1 (lines_of bytes) ≡ Ok tasks.items)) }
    ensures fits { IfOk result (λ tasks. TasksFit model.now.chip (length model.now.layout.maps) tasks.items) }
    ensures refused { IfErr result (λ fault. IfSome (refused_line fault) (λ at.
        IfSome (input_of lines.old (S.left source.old))
        (λ bytes. tasks_from model.now 1 (lines_of bytes) ≡ Err at))) }
    ensures source_later { S.faults source.old ≤ S.faults source.new }
    ensures cause { result ≡ Err ScriptFault.Source → Rose (S.faults source.old) (S.faults source.new) }
{
    let mut tasks = Vec::new(alloc);
    let mut number = 1u64;
    loop {
        match next_job(alloc, model, number, lines, source)? {
            Turn::Line(job) => push_job(&mut tasks, number, job)?,
            Turn::End => return Ok(tasks),
        }
        number += 1;
    }
}
