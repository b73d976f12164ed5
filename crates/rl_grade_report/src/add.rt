// Shares of a grading that are added.
ghost use Rattle.std.specs.Prelude.{◌≡◌, IfErr, IfOk, IfSome, OnOk, ◌++◌, true};
ghost use Rattle.std.specs.Io.KnownBytes.{IsAtEnd};
ghost use Rattle.rl_grade_report.specs.Added.{added_of, of_share, refusal_text, sums_of, sums_status, sums_told};
ghost use Rattle.rl_grade_report.specs.Prelude.{LeavesEnded, LeavesLog, Puts, TellsGraded, is_complete};
ghost use Rattle.rl_grade_report.specs.Shares.{refused_by};
ghost use Rattle.rl_grade_report.specs.Totals.{end_text};

use crate::grading::status_of;
use crate::pieces::push_after;
use crate::shares::{SharesFault, Unfit, shares_of};
use crate::sums::sums_in;
use crate::totals::{Totals, push_end};
use crate::whole::read_all;
use crate::writing::put_text;
use rl_grade::Share;
use rl_log::Status;
use rl_report::{Sink, Source};
use rl_session_run::end_log;
use std::alloc::{AllocError, Global};

// What is written, and the status.
#[derive(Drop)]
struct Added {
    text: Vec<u8>,
    status: Status,
}

// The sums of the shares of a text.
fn sums_of(alloc: Global, text: &[u8]) -> Result<Totals, SharesFault>
    ensures sums { IfOk result (λ sums. sums_of text.now ≡ Ok sums) }
    ensures refused { IfErr result (λ fault. IfSome (refused_by fault) (λ why. sums_of text.now ≡ Err why)) }
{
    let parts = shares_of(alloc, text)?;
    match sums_in(&parts) {
        Ok(sums) => Ok(sums),
        Err(why) => Err(SharesFault::Refused(why)),
    }
}

// Appends what is said of a share.
fn push_of_share(text: &mut Vec<u8>, share: Share, said: &[u8]) -> Result<(), AllocError>
    ensures { OnOk result (text.new.items ≡ text.old.items ++ of_share share said.now) }
{
    push_after(text, b"refused shares: share ", share.first)?;
    push_after(text, b"/", share.every)?;
    text.extend_from_slice(said)?;
    Ok(())
}

// Appends that no share begins in a line.
fn push_no_head(text: &mut Vec<u8>, line: u64) -> Result<(), AllocError>
    ensures { OnOk result (text.new.items ≡ text.old.items ++ refusal_text (Unfit.NoHead line)) }
{
    push_after(text, b"refused shares: line ", line)?;
    text.extend_from_slice(b": no share begins here\n")?;
    Ok(())
}

// Appends why shares aren't added.
fn push_refusal(text: &mut Vec<u8>, why: Unfit) -> Result<(), AllocError>
    ensures { OnOk result (text.new.items ≡ text.old.items ++ refusal_text why) }
{
    match why {
        Unfit::NoShare => text.extend_from_slice(b"refused shares: there is none\n"),
        Unfit::NoHead(line) => push_no_head(text, line),
        Unfit::Cut(share) => push_of_share(text, share, b" is cut\n"),
        Unfit::OfAnother(share) => push_of_share(text, share, b" is of another grading\n"),
        Unfit::Twice(share) => push_of_share(text, share, b" came twice\n"),
        Unfit::Lacking(share) => push_of_share(text, share, b" is lacking\n"),
    }
}

// How shares end that are added.
fn sums_status(bound: Option<u64>, sums: Totals) -> Status
    ensures { result ≡ sums_status bound sums }
{
    if sums.is_below(bound) {
        Status::Found
    } else {
        Status::Passed
    }
}

// The last line of the whole.
fn told(alloc: Global, bound: Option<u64>, sums: Totals) -> Result<Added, AllocError>
    ensures text { IfOk result (λ it. it.text.items ≡ end_text sums) }
    ensures status { IfOk result (λ it. it.status ≡ sums_status bound sums) }
{
    let mut text = Vec::new(alloc);
    push_end(&mut text, sums)?;
    Ok(Added {
        text,
        status: sums_status(bound, sums),
    })
}

// The line that refuses shares.
fn refused(alloc: Global, why: Unfit) -> Result<Added, AllocError>
    ensures text { IfOk result (λ it. it.text.items ≡ refusal_text why) }
    ensures status { IfOk result (λ it. it.status ≡ Status.Refused) }
{
    let mut text = Vec::new(alloc);
    push_refusal(&mut text, why)?;
    Ok(Added {
        text,
        status: Status::Refused,
    })
}

// What is written of these bytes, and the status.
fn added_of(alloc: Global, bound: Option<u64>, bytes: &[u8]) -> Result<Added, Status>
    ensures text { IfOk result (λ it. it.text.items ≡ (added_of bound bytes.now).text) }
    ensures status { IfOk result (λ it. it.status ≡ (added_of bound bytes.now).status) }
    ensures memory { IfErr result (λ status. status ≡ Status.Memory) }
{
    let added = match sums_of(alloc, bytes) {
        Ok(sums) => told(alloc, bound, sums),
        Err(SharesFault::Refused(why)) => refused(alloc, why),
        Err(SharesFault::Memory) => return Err(Status::Memory),
    };
    match added {
        Ok(added) => Ok(added),
        Err(_) => Err(Status::Memory),
    }
}

// Writes what comes of these bytes.
fn put_added<K: Sink>(
    alloc: Global,
    bound: Option<u64>,
    bytes: &[u8],
    log: &mut K,
) -> Result<Status, Status>
    ensures bytes { Puts (K.written log.old) (K.written log.new) (added_of bound bytes.now).text result }
    ensures status { IfOk result (λ status. status ≡ (added_of bound bytes.now).status) }
    ensures leaves { LeavesLog K.Sink result log.old log.new }
{
    let Ok(added) = added_of(alloc, bound, bytes) else {
        return Err(Status::Memory);
    };
    match put_text(&added.text, log) {
        Ok(()) => Ok(added.status),
        Err(status) => Err(status),
    }
}

/// Adds the shares of a grading: the source has their texts, one after the other and in any order, as `run` or `lines`
/// wrote them. What is written is the last line of the whole grading, or why there is none.
///
/// Where a bound is asked for and fewer flaws were found in all, the status is `Found`. Nothing is written before all
/// was read. The log is finished once, where its line was written.
pub fn run_add<S: Source, K: Sink>(
    alloc: Global,
    bound: Option<u64>,
    source: &mut S,
    log: &mut K,
) -> Status
    // Which shares are refused and in what words, what is written of the others, and the statuses.
    ensures tells { IfSome (S.left source.old) (λ bytes.
        TellsGraded (added_of bound bytes) result (K.written log.old) (K.written log.new)) }

    // However it ends, the log keeps the bytes that it had before, and is ended exactly where its line was written.
    // No fault is made up, and the status is never that of other words.
    ensures leaves { LeavesEnded K.Sink result (S.faults source.old) (S.faults source.new) log.old log.new }

    // Where a line was written, the source was read to its end.
    ensures end { is_complete result ≡ true → IsAtEnd (S.left source.new) }
{
    let bytes = match read_all(alloc, source) {
        Ok(bytes) => bytes,
        Err(status) => return status,
    };
    let status = status_of(put_added(alloc, bound, &bytes, log));
    end_log(status, log)
}
