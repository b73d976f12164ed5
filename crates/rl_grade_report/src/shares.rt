// The shares of a text, one behind the other.
ghost use Rattle.std.specs.Prelude.{◌≡◌, ◌==◌, ◌<◌, ◌++◌, ◌∷◌, [], Ok, Err, None, IfOk, IfErr, IfSome, MatchOption};
ghost use Rattle.std.specs.Prelude.{length, position};
ghost use Rattle.rl_report.specs.Lines.{after_line, first_line, lines_of};
ghost use Rattle.rl_grade_report.specs.Shares.{begun, came, closed, gone_on, refused_by, shares_of, with_line};

use crate::said::{Head, Said, said_by};
use crate::totals::Totals;
use rl_grade::Share;
use std::alloc::Global;

/// A share that came whole.
#[derive(Clone, Copy)]
pub(crate) struct Part {
    pub(crate) head: Head,
    pub(crate) totals: Totals,
}

/// Why shares aren't added.
#[derive(Clone, Copy)]
pub(crate) enum Unfit {
    /// There is none.
    NoShare,
    /// No share begins in the line of this number, where one should.
    NoHead(u64),
    /// This one has no end.
    Cut(Share),
    /// This one is of another session, or one of another number of shares than the first.
    OfAnother(Share),
    /// This one came more than once.
    Twice(Share),
    /// This one didn't come.
    Lacking(Share),
}

/// Why nothing was added.
#[derive(Clone, Copy)]
pub(crate) enum SharesFault {
    Refused(Unfit),
    /// Memory ran out.
    Memory,
}

// The shares so far.
#[derive(Drop)]
struct Shares {
    // Those that came whole, in order.
    whole: Vec<Part>,
    // The one whose end is awaited.
    current: Option<Head>,
}

// Where the first line ends.
fn end_of(text: &[u8]) -> Option<usize>
    ensures place { result ≡ position (λ c. c == 10) text.now }
    ensures within { IfSome result (λ size. size < length text.now) }
{
    text.iter().position(|byte| *byte == b'\n')
}

// The first line without its end, and what is behind it.
fn cut_line(text: &[u8]) -> (&[u8], &[u8])
    ensures line { result.0.now ≡ first_line text.now }
    ensures behind { result.1.now ≡ after_line text.now }
{
    match end_of(text) {
        Some(size) => (&text[..size], &text[size + 1..]),
        None => (text, &[]),
    }
}

// The first line, if there is one, and what is behind it.
pub(crate) fn next_line(text: &[u8]) -> Option<(&[u8], &[u8])>
    ensures lines { MatchOption result (lines_of text.now ≡ [])
        (λ found. lines_of text.now ≡ found.0.now ∷ lines_of found.1.now) }
    ensures shorter { IfSome result (λ found. length found.1.now < length text.now) }
{
    if text.is_empty() {
        return None;
    }
    Some(cut_line(text))
}

// With a share that came whole.
fn ended(whole: Vec<Part>, part: Part) -> Result<Shares, SharesFault>
    ensures next { IfOk result (λ next. came next ≡ record { whole = whole.items ++ part ∷ []; current = None }) }
    ensures memory { IfErr result (λ fault. fault ≡ SharesFault.Memory) }
{
    let mut whole = whole;
    match whole.push(part) {
        Ok(()) => Ok(Shares {
            whole,
            current: None,
        }),
        Err(_) => Err(SharesFault::Memory),
    }
}

// With a line where no share is open.
fn begun(whole: Vec<Part>, number: u64, said: Said) -> Result<Shares, SharesFault>
    ensures next { IfOk result (λ next. begun whole.items number said ≡ Ok (came next)) }
    ensures refused { IfErr result (λ fault. IfSome (refused_by fault)
        (λ why. begun whole.items number said ≡ Err why)) }
{
    match said {
        Said::Head(head) => Ok(Shares {
            whole,
            current: Some(head),
        }),
        Said::End(_) | Said::Place | Said::Stray => Err(SharesFault::Refused(Unfit::NoHead(
            number,
        ))),
    }
}

// With a line where this share is open.
fn gone_on(whole: Vec<Part>, head: Head, said: Said) -> Result<Shares, SharesFault>
    ensures next { IfOk result (λ next. gone_on whole.items head said ≡ Ok (came next)) }
    ensures refused { IfErr result (λ fault. IfSome (refused_by fault)
        (λ why. gone_on whole.items head said ≡ Err why)) }
{
    match said {
        Said::End(totals) => ended(whole, Part { head, totals }),
        Said::Place => Ok(Shares {
            whole,
            current: Some(head),
        }),
        Said::Head(_) | Said::Stray => Err(SharesFault::Refused(Unfit::Cut(head.share))),
    }
}

// With the line of this number.
fn with_line(alloc: Global, shares: Shares, number: u64, line: &[u8]) -> Result<Shares, SharesFault>
    ensures next { IfOk result (λ next. with_line (came shares) number line.now ≡ Ok (came next)) }
    ensures refused { IfErr result (λ fault. IfSome (refused_by fault)
        (λ why. with_line (came shares) number line.now ≡ Err why)) }
{
    let Ok(said) = said_by(alloc, line) else {
        return Err(SharesFault::Memory);
    };
    match shares.current {
        None => begun(shares.whole, number, said),
        Some(head) => gone_on(shares.whole, head, said),
    }
}

// Behind the last line.
fn closed(shares: Shares) -> Result<Vec<Part>, SharesFault>
    ensures parts { IfOk result (λ parts. closed (came shares) ≡ Ok parts.items) }
    ensures refused { IfErr result (λ fault. IfSome (refused_by fault) (λ why. closed (came shares) ≡ Err why)) }
{
    match shares.current {
        None => Ok(shares.whole),
        Some(head) => Err(SharesFault::Refused(Unfit::Cut(head.share))),
    }
}

/// The shares of a text, in order.
///
/// # Errors
///
/// The first line where no share begins and one should, or the first share without its end; and running out of memory.
pub(crate) fn shares_of(alloc: Global, text: &[u8]) -> Result<Vec<Part>, SharesFault>
    ensures parts { IfOk result (λ parts. shares_of text.now ≡ Ok parts.items) }
    ensures refused { IfErr result (λ fault. IfSome (refused_by fault) (λ why. shares_of text.now ≡ Err why)) }
{
    let mut shares = Shares {
        whole: Vec::new(alloc),
        current: None,
    };
    let mut rest = text;
    let mut number = 0u64;
    while let Some((line, behind)) = next_line(rest) {
        number += 1;
        shares = with_line(alloc, shares, number, line)?;
        rest = behind;
    }
    closed(shares)
}
