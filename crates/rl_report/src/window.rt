// Bytes of a source that stand between two places of a buffer.
ghost use Rattle.std.specs.Prelude.{◌≡◌, ◌+◌, ◌-◌, ◌<◌, ◌≤◌, ◌++◌, length, take, drop, min, slice_range, IfOk, OnErr};
ghost use Rattle.std.specs.Io.KnownBytes.{Consumes, IsAtEnd, Keeps};
ghost use Rattle.rl_bus.specs.Causes.{HasCause};

use crate::{Failed, Source};

/// Reads once, after the part of a buffer that is between the two places. That moves to the front where there is
/// no room after it. Answers how many bytes came: none at the source's end.
pub fn refill<S: Source>(
    buffer: &mut [u8],
    start: &mut usize,
    end: &mut usize,
    source: &mut S,
) -> Result<usize, Failed>
    requires ordered { start.old ≤ end.old }
    requires within { end.old ≤ length buffer.old }
    requires apart { end.old ≡ length buffer.old → (0 < start.old) × (end.old - start.old ≤ start.old) }
    ensures ordered { start.new ≤ end.new }
    ensures within { end.new ≤ length buffer.new }
    ensures grown { IfOk result (λ count. (bytes : _) × (length bytes ≡ count)
        × (slice_range buffer.new start.new end.new ≡ slice_range buffer.old start.old end.old ++ bytes)
        × Consumes (S.left source.old) (S.left source.new) bytes) }
    ensures none { IfOk result (λ count. count ≡ 0
        → slice_range buffer.new start.new end.new ≡ slice_range buffer.old start.old end.old) }
    ensures ended { IfOk result (λ count. count ≡ 0 → IsAtEnd (S.left source.new)) }
    ensures same { OnErr result (slice_range buffer.new start.new end.new ≡ slice_range buffer.old start.old end.old) }
    ensures kept { OnErr result (Keeps (S.left source.old) (S.left source.new)) }
    ensures cause { HasCause (S.faults source.old) (S.faults source.new) result }
{
    let (from, to) = make_room(buffer, *start, *end);
    *start = from;
    *end = to;
    let count = read_behind(buffer, to, source)?;
    *end = to + count;
    Ok(count)
}

// Reads once, behind what the buffer holds.
fn read_behind<S: Source>(buffer: &mut [u8], end: usize, source: &mut S) -> Result<usize, Failed>
    requires { end < length buffer.old }
    ensures room { IfOk result (λ count. count ≤ length buffer.old - end) }
    ensures before { take end buffer.new ≡ take end buffer.old }
    ensures bytes { IfOk result (λ count. Consumes (S.left source.old) (S.left source.new)
        (slice_range buffer.new end (end + count))) }
    ensures end { IfOk result (λ count. count ≡ 0 → IsAtEnd (S.left source.new)) }
    ensures kept { OnErr result (Keeps (S.left source.old) (S.left source.new)) }
    ensures cause { HasCause (S.faults source.old) (S.faults source.new) result }
{
    source.read(&mut buffer[end..])
}

// Moves what stands between two places to the front, where there is no room behind it. Answers where it stands now.
fn make_room(buffer: &mut [u8], start: usize, end: usize) -> (usize, usize)
    requires ordered { start ≤ end }
    requires within { end ≤ length buffer.old }
    requires apart { end ≡ length buffer.old → (0 < start) × (end - start ≤ start) }
    ensures ordered { result.0 ≤ result.1 }
    ensures room { result.1 < length buffer.new }
    ensures same { slice_range buffer.new result.0 result.1 ≡ slice_range buffer.old start end }
{
    if end < buffer.len() {
        return (start, end);
    }
    let count = end - start;
    let (front, back) = buffer.split_at_mut(start);
    front[..count].copy_from_slice(&back[..count]);
    (0, count)
}

/// Copies as many bytes as both have, and no more than `most`. Answers how many.
pub fn copy_front(from: &[u8], to: &mut [u8], most: usize) -> usize
    ensures count { result ≡ min (min (length from.now) (length to.old)) most }
    ensures copied { to.new ≡ take result from.now ++ drop result to.old }
{
    let count = from.len().min(to.len()).min(most);
    to[..count].copy_from_slice(&from[..count]);
    count
}
