// The lines that the script of a session needs.
ghost use Rattle.std.specs.Prelude.{◌≡◌, [], All, IfOk, IfSome, length, map};
ghost use Rattle.rl_log.specs.declared.status.Status.TheVariants.{Passed};
ghost use Rattle.rl_log.specs.Telling.{Tells};
ghost use Rattle.rl_model.specs.Chip.{HasItem};
ghost use Rattle.rl_report.specs.Lines.{lines_of};
ghost use Rattle.rl_session_run.specs.Prelude.{AwaitsScript, IsCaused, LeavesEnded, LeavesOpen, StaysOpen};
ghost use Rattle.rl_session_run.specs.Prelude.{input_of, kinds_of};
ghost use Rattle.rl_grade.specs.Prelude.{TasksFit, fresh_standings};
ghost use Rattle.rl_plan.specs.Adding.{added_of, added_text, needed_text, nothing_text, script_added};
ghost use Rattle.rl_plan.specs.Run.{TellsPlan, desc_of};
ghost use Rattle.rl_plan.specs.Trial.{CanTry};

use crate::asked::Asked;
use crate::behind::unflawed_desc;
use crate::enough::added_items;
use crate::lines::lines_text;
use crate::needed::Needs;
use crate::refusal::{Unflawed, end_unread};
use crate::run::status_of;
use rl_access::Model;
use rl_bus::{Adapter, Adapters};
use rl_desc::Desc;
use rl_grade::{Task, read_script};
use rl_log::Status;
use rl_model::Item;
use rl_report::{LineReader, Sink, Source, put_all};
use rl_session::model_of;
use rl_session_run::{end_log, open_checked};
use std::alloc::{AllocError, Global};

fn nothing_text(alloc: Global) -> Result<Vec<u8>, AllocError>
    ensures { IfOk result (λ text. text.items ≡ nothing_text) }
{
    let mut text = Vec::new(alloc);
    text.extend_from_slice(b"# nothing to add\n")?;
    Ok(text)
}

// The plan's lines for these items, or that there are none.
fn added_text(
    alloc: Global,
    model: &Model,
    asked: Asked,
    items: &[Item],
) -> Result<Vec<u8>, AllocError>
    requires { All (HasItem model.now.chip) items.now }
    ensures { IfOk result (λ text. text.items ≡ added_text model.now asked items.now) }
{
    if items.is_empty() {
        return nothing_text(alloc);
    }
    lines_text(alloc, model, asked, items)
}

// What a script of these tasks needs.
fn needed_text(
    alloc: Global,
    asked: Asked,
    desc: Desc,
    script: Vec<Task>,
) -> Result<Vec<u8>, AllocError>
    requires can_try { CanTry desc script.items }
    requires none { desc.flaws ≡ [] }
    ensures { IfOk result (λ text. text.items ≡ needed_text desc asked script.items) }
{
    let Needs { desc, items } = added_items(alloc, asked, desc, script)?;
    let model = model_of(alloc, desc)?;
    added_text(alloc, &model, asked, &items)
}

// Writes what a script of these tasks needs, by the model of its description, which has no flaws.
fn put_needed<K: Sink>(
    alloc: Global,
    asked: Asked,
    model: Model,
    script: Vec<Task>,
    log: &mut K,
) -> Status
    requires kinds { model.layout.kinds ≡ kinds_of fresh_standings }
    requires fits { TasksFit model.chip (length model.layout.maps) script.items }
    ensures tells { Tells result Passed (K.written log.old) (K.written log.new)
        (needed_text (desc_of model) asked script.items) }
    ensures cause { IsCaused result 0 0 (K.faults log.old) (K.faults log.new) }
    ensures stays { StaysOpen K.written K.faults K.ends log.old log.new }
{
    match needed_text(alloc, asked, unflawed_desc(alloc, model), script) {
        Ok(text) => status_of(put_all(log, &text)),
        Err(_) => Status::Memory,
    }
}

// Writes what the script needs, which is left of a session behind its head.
fn put_script<S: Source, K: Sink>(
    alloc: Global,
    asked: Asked,
    desc: Desc,
    lines: &mut LineReader,
    source: &mut S,
    log: &mut K,
) -> Status
    requires awaits { AwaitsScript desc lines.old (kinds_of fresh_standings) }
    requires none { desc.flaws ≡ [] }
    ensures tells { IfSome (input_of lines.old (S.left source.old)) (λ bytes.
        TellsPlan (script_added asked desc (lines_of bytes)) result (K.written log.old) (K.written log.new)) }
    ensures leaves { LeavesOpen K.Sink result (S.faults source.old) (S.faults source.new) log.old log.new }
{
    let Ok(model) = model_of(alloc, desc) else {
        return Status::Memory;
    };
    match read_script(alloc, &model, lines, source) {
        Ok(tasks) => put_needed(alloc, asked, model, tasks, log),
        Err(fault) => end_unread(fault, log),
    }
}

/// Writes those lines of the plan that a session's script needs: the lines of each register and memory that find a flaw
/// of it first, where they are after the script. Where there is none, one comment line says so. Where these lines miss
/// a flaw that the lines of all registers and memories find after the script, it writes the lines of all. The adapters
/// are a plain and an APB adapter that have sent nothing; nothing is sent over them.
///
/// The log is finished once, where its last line was written.
pub fn run_added<S: Source, K: Sink>(
    alloc: Global,
    asked: Asked,
    source: &mut S,
    log: &mut K,
    adapters: &Adapters,
) -> Status
    requires fresh { map standing adapters.now.items ≡ fresh_standings }

    // Which sessions are refused and in what words, what is written of the others, and the statuses.
    ensures tells { IfSome (S.left source.old) (λ bytes.
        TellsPlan (added_of asked bytes) result (K.written log.old) (K.written log.new)) }

    // However it ends, the log keeps the bytes that it had before, and is ended exactly where its last line was
    // written. No fault is made up, and the status is never that of other words.
    ensures leaves { LeavesEnded K.Sink result (S.faults source.old) (S.faults source.new) log.old log.new }
{
    let (desc, mut lines) = match open_checked(alloc, source, log, adapters, &Unflawed {}) {
        Ok(opened) => opened,
        Err(status) => return end_log(status, log),
    };
    let told = put_script(alloc, asked, desc, &mut lines, source, log);
    end_log(told, log)
}
