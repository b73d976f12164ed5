// What a user is told of a peer: what it chatters, an unknown value, what it didn't do, and how the link broke.
ghost use Rattle.std.specs.Prelude.{◌≡◌, ◌++◌};
ghost use Rattle.rl_report.specs.Pieces.{PutsText};
ghost use Rattle.rl_link.specs.Message.{cause_text, is_of_line, chatter_text, unknown_text, undone_text, break_text};
ghost use Rattle.rl_link.specs.Message.{line_told, where_told, request_told, line_and_request, talk_told, told_text};

use crate::answer::Cause;
use crate::held::first_line;
use crate::link::Break;
use itoa::Buffer;
use rl_report::{Failed, Sink, put_all, put_pieces, text_beside};

const MOST: usize = 80;

fn cause_text(cause: Cause) -> &'static [u8]
    ensures { result.now ≡ cause_text cause }
{
    text_beside! {
        cause: Cause;
        Unsent b"the request couldn't be sent", Unread b"the answer couldn't be read",
        Closed b"the output ended before an answer", TooLong b"a line of more than 4096 bytes",
        TooMany b"10000 lines that are no answer", Unasked b"an answer that nothing was asked for",
        Unclear b"a line that doesn't answer the request", TooWide b"a word that is wider than the bus",
        Backdoor b"a link has no backdoor", Memory b"no memory"
    }
}

// Whether a line of the peer is what broke the link. That line is held in front.
fn is_of_line(cause: Cause) -> bool
    ensures { result ≡ is_of_line cause }
{
    matches!(
        cause,
        Cause::TooLong | Cause::Unasked | Cause::Unclear | Cause::TooWide
    )
}

// What is told of the bytes in front: their first line, up to a limit.
fn line_told(bytes: &[u8]) -> &[u8]
    ensures { result.now ≡ line_told bytes.now }
{
    let line = first_line(bytes);
    &line[..line.len().min(MOST)]
}

/// Passes on a line of the peer that is no answer.
pub(crate) fn put_chatter<M: Sink>(messages: &mut M, line: &[u8]) -> Result<(), Failed>
    ensures { PutsText M.Sink messages.old messages.new (chatter_text line.now) result }
{
    let pieces: [&[u8]; 3] = [b"peer: ", line, b"\n"];
    put_pieces(messages, &pieces)
}

/// Says that the peer's answer, the line in front of these bytes, is a word with unknown bits.
pub(crate) fn put_unknown<M: Sink>(
    messages: &mut M,
    line: u64,
    held: &[u8],
    request: &[u8],
) -> Result<(), Failed>
    ensures { PutsText M.Sink messages.old messages.new (unknown_text line held.now request.now) result }
{
    let mut number = Buffer::new();
    let pieces: [&[u8]; 7] = [
        b"an unknown value at line ",
        number.format(line).as_bytes(),
        b" of the peer's output: `",
        line_told(held),
        b"`; the request was `",
        first_line(request),
        b"`\n",
    ];
    put_pieces(messages, &pieces)
}

/// Says in the log that the peer didn't do what was asked, which its answer, the line in front of these bytes, says.
pub(crate) fn put_undone<N: Sink>(notes: &mut N, held: &[u8], request: &[u8]) -> Result<(), Failed>
    ensures { PutsText N.Sink notes.old notes.new (undone_text held.now request.now) result }
{
    let pieces: [&[u8]; 5] = [
        b"# not done: `",
        first_line(request),
        b"`; the answer was `",
        line_told(held),
        b"`\n",
    ];
    put_pieces(notes, &pieces)
}

// Says at which line of the peer a link broke, and why.
fn put_cause<Q: Sink>(sink: &mut Q, broken: Break) -> Result<(), Failed>
    ensures { PutsText Q.Sink sink.old sink.new (where_told broken.line ++ cause_text broken.cause) result }
{
    put_where(sink, broken.line)?;
    put_all(sink, cause_text(broken.cause))
}

// Says at which line of the peer a link broke.
fn put_where<Q: Sink>(sink: &mut Q, line: u64) -> Result<(), Failed>
    ensures { PutsText Q.Sink sink.old sink.new (where_told line) result }
{
    let mut number = Buffer::new();
    let pieces: [&[u8]; 3] = [
        b"the link broke at line ",
        number.format(line).as_bytes(),
        b" of the peer's output: ",
    ];
    put_pieces(sink, &pieces)
}

// Says what the last request was.
fn put_request<Q: Sink>(sink: &mut Q, request: &[u8]) -> Result<(), Failed>
    ensures { PutsText Q.Sink sink.old sink.new (request_told request.now) result }
{
    let pieces: [&[u8]; 3] = [b"; the request was `", first_line(request), b"`\n"];
    put_pieces(sink, &pieces)
}

// Says what came, and what the last request was.
fn put_line_and_request<Q: Sink>(sink: &mut Q, held: &[u8], request: &[u8]) -> Result<(), Failed>
    ensures { PutsText Q.Sink sink.old sink.new (line_and_request held.now request.now) result }
{
    let pieces: [&[u8]; 5] = [
        b": `",
        line_told(held),
        b"`; the request was `",
        first_line(request),
        b"`\n",
    ];
    put_pieces(sink, &pieces)
}

// Says what came, where it is what broke the link, and what the last request was.
fn put_talk<Q: Sink>(sink: &mut Q, cause: Cause, held: &[u8], request: &[u8]) -> Result<(), Failed>
    ensures { PutsText Q.Sink sink.old sink.new (talk_told cause held.now request.now) result }
{
    if is_of_line(cause) {
        put_line_and_request(sink, held, request)
    } else {
        put_request(sink, request)
    }
}

// Says where and why a link broke, the line that came where it is what broke it, and the last request.
fn put_told<Q: Sink>(sink: &mut Q, broken: Break, held: &[u8], request: &[u8]) -> Result<(), Failed>
    ensures { PutsText Q.Sink sink.old sink.new (told_text broken held.now request.now) result }
{
    put_cause(sink, broken)?;
    put_talk(sink, broken.cause, held, request)
}

/// Says after a mark where and why a link broke, the line that came where it is what broke it, and the last request.
pub(crate) fn put_break<Q: Sink>(
    sink: &mut Q,
    mark: &[u8],
    broken: Break,
    held: &[u8],
    request: &[u8],
) -> Result<(), Failed>
    ensures { PutsText Q.Sink sink.old sink.new (break_text mark.now broken held.now request.now) result }
{
    put_all(sink, mark)?;
    put_told(sink, broken, held, request)
}
