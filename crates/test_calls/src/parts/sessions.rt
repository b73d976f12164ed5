// Whole sessions, from sources and into sinks that fail or take pieces.
use crate::parts::running::ran;
use regrun::Status;
use std::alloc::{AllocGlobal, Global};
use std::process::Abort;
use std::test::Fail;

// The smallest use of the command.
const PLAIN: &[u8] = b"\
[[reg]]
name = \"a\"
bytes = 4
field = [{name = \"v\", lsb = 0, width = 32, policy = \"RW\"}]
[[map]]
name = \"bus\"
bytes = 4
[[place]]
map = \"bus\"
item = \"a\"
---
write a 0x5
read a
";

const PLAIN_LOG: &[u8] = b"\
write a 0x5 @bus: ok mirror 0x00000005
  bus w 0x0 0x00000005 1111 #0 ok
read a @bus: ok 0x00000005 mirror 0x00000005
  bus r 0x0 0x00000005 1111 #1 ok
end: 2 events, 0 differences, 0 bus errors
";

// A group of two writes, and one of a read, which the end of the input closes.
const WOVEN: &[u8] = b"\
[[reg]]
name = 'a'
bytes = 2
field = [{name = 'v', lsb = 0, width = 16, policy = 'RW'}]
[[reg]]
name = 'b'
bytes = 2
field = [{name = 'v', lsb = 0, width = 16, policy = 'RW'}]
[[map]]
name = 'bus'
bytes = 1
predict = 'explicit'
[[place]]
map = 'bus'
item = 'a'
[[place]]
map = 'bus'
item = 'b'
offset = 2
---
other-write a 0x1122
other-write b 0x3344

other-read a
";

const WOVEN_LOG: &[u8] = b"  bus w 0x0 0x22 1 #0 ok
  bus w 0x2 0x44 1 #1 ok
  bus w 0x1 0x11 1 #2 ok
other-write a 0x1122 @bus: ok mirror 0x1122
  bus w 0x3 0x33 1 #3 ok
other-write b 0x3344 @bus: ok mirror 0x3344
  bus r 0x0 0x22 1 #4 ok
  bus r 0x1 0x11 1 #5 ok
other-read a @bus: ok 0x1122 mirror 0x1122
end: 3 events, 0 differences, 0 bus errors
";

// The words of the command, a session and its log. The log has a part for each line or group: the bytes of the input that
// are read before it is written, with the end of the input as one more, and how long it is.
struct Case {
    words: &'static [&'static str],
    session: &'static [u8],
    log: &'static [u8],
    parts: &'static [(u64, u64)],
}

static CASES: [Case; 2] = [
    Case {
        words: &["run"],
        session: PLAIN,
        log: PLAIN_LOG,
        parts: &[(168, 73), (175, 79), (176, 43)],
    },
    Case {
        words: &["weave", "1"],
        session: WOVEN,
        log: WOVEN_LOG,
        parts: &[(352, 188), (366, 136)],
    },
];

// By a function, so that no proof reads it.
fn cases() -> &'static [Case] {
    &CASES
}

// A status, how long the log is, and whether that is a front of the whole one.
type Seen = (Status, u64, bool);

fn seen(
    alloc: Global,
    case: &Case,
    piece: usize,
    source_fails: &[u64],
    sink_fails: &[u64],
) -> Result<Seen, Fail> {
    let (status, log) = ran(
        alloc,
        case.words,
        case.session,
        piece,
        source_fails,
        sink_fails,
    )?;
    Ok((
        status,
        log.len() as u64,
        case.log.starts_with(log.as_slice()),
    ))
}

fn expect(rt: &impl Abort, case: &Case, at: u64, got: Seen, want: Seen) {
    assert_eq!(rt; got, want, "{:?} at {at}", case.words);
}

fn pieces() -> &'static [usize] {
    &[0, 1, 7, 8192]
}

#[test]
fn runs_in_any_pieces(rt: HostRuntime) -> Result<(), Fail> {
    for case in cases() {
        for piece in pieces() {
            let got = seen(rt.alloc(), case, *piece, &[], &[])?;
            let whole = (Status::Passed, case.log.len() as u64, true);
            expect(&rt, case, *piece as u64, got, whole);
        }
    }
    Ok(())
}

// How much of the log is written where so many bytes are read.
fn taken_of(parts: &[(u64, u64)], bytes: u64) -> u64 {
    let mut taken = 0u64;
    for (read, len) in parts {
        if *read <= bytes {
            taken = taken.saturating_add(*len);
        }
    }
    taken
}

// The source gives a byte at a call, and fails at one.
fn fails_at_each_read(rt: &(impl Abort + AllocGlobal), case: &Case) -> Result<(), Fail> {
    for call in 0..=case.session.len() as u64 {
        let got = seen(rt.alloc(), case, 1, &[call], &[])?;
        let want = (Status::SourceFault, taken_of(case.parts, call), true);
        expect(rt, case, call, got, want);
    }
    Ok(())
}

#[test]
fn source_fails_at_each_call(rt: HostRuntime) -> Result<(), Fail> {
    for case in cases() {
        fails_at_each_read(&rt, case)?;
    }
    Ok(())
}

// How much of the log is out before a call of the sink. Each part is written before more is read, three bytes at a call.
fn out_before(parts: &[(u64, u64)], call: u64) -> u64 {
    let mut left = call;
    let mut out = 0u64;
    for (_, len) in parts {
        let calls = len.div_ceil(3).min(left);
        out = out.saturating_add(calls.saturating_mul(3).min(*len));
        left -= calls;
    }
    out
}

// The source gives a byte at a call, and the sink fails at one.
fn fails_at_each_write(rt: &(impl Abort + AllocGlobal), case: &Case) -> Result<(), Fail> {
    for call in 0..u64::MAX {
        let out = out_before(case.parts, call);
        if out >= case.log.len() as u64 {
            break;
        }
        let got = seen(rt.alloc(), case, 1, &[], &[call])?;
        expect(rt, case, call, got, (Status::SinkFault, out, true));
    }
    Ok(())
}

#[test]
fn sink_fails_at_each_call(rt: HostRuntime) -> Result<(), Fail> {
    for case in cases() {
        fails_at_each_write(&rt, case)?;
    }
    Ok(())
}

// The cuts of the smallest session. A session of fewer bytes than a row says, and of no fewer than the row before it
// says, has the status and the last line that stand beside them.
static CUTS: [(usize, Status, &str); 10] = [
    (155, Status::Refused, "refused session: no separator\n"),
    (
        157,
        Status::Passed,
        "end: 0 events, 0 differences, 0 bus errors\n",
    ),
    (161, Status::Refused, "refused line 1: no such command\n"),
    (165, Status::Refused, "refused line 1: wrong count\n"),
    (
        166,
        Status::Passed,
        "end: 1 events, 0 differences, 0 bus errors\n",
    ),
    (167, Status::Refused, "refused line 1: bad number\n"),
    (
        169,
        Status::Passed,
        "end: 1 events, 0 differences, 0 bus errors\n",
    ),
    (172, Status::Refused, "refused line 2: no such command\n"),
    (174, Status::Refused, "refused line 2: wrong count\n"),
    (
        176,
        Status::Passed,
        "end: 2 events, 0 differences, 0 bus errors\n",
    ),
];

fn cuts() -> &'static [(usize, Status, &'static str)] {
    &CUTS
}

// How a session of so many bytes ends.
fn end_at(cut: usize) -> (Status, &'static str) {
    for (past, status, last) in cuts() {
        if cut < *past {
            return (*status, *last);
        }
    }
    (Status::Passed, "")
}

fn plain_cut(cut: usize) -> &'static [u8] {
    PLAIN.get(..cut).unwrap_or(PLAIN)
}

#[test]
fn a_session_cut_anywhere_ends(rt: HostRuntime) -> Result<(), Fail> {
    for cut in 0..176usize {
        let (want, last) = end_at(cut);
        let (status, log) = ran(rt.alloc(), &["run"], plain_cut(cut), 0, &[], &[])?;
        assert_eq!(rt;
            (status, log.ends_with(last.as_bytes())),
            (want, true),
            "{cut}"
        );
    }
    Ok(())
}
