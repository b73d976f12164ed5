// A text that is put together before it is written in one piece.
ghost use Rattle.std.specs.Prelude.{◌≡◌, ◌+◌, ◌-◌, ◌%◌, ◌^◌, ◌<◌, ◌≤◌, [], ◌++◌, length, take, slice_range};
ghost use Rattle.rl_policy.specs.Numbers.{hex_digits};
ghost use Rattle.rl_report.specs.Numbers.{padded, lanes_text};

use crate::numbers::{digit_count, four_digits, write_digits};
use std::marker::Model;
use std::simd::Simd;

const ROOM: usize = 512;

/// A text of no more than 512 bytes. It is seen as these bytes.
#[derive(Drop)]
pub struct Text {
    bytes: [u8; ROOM],
    len: usize,
}

impl Model for Text {
    ghost use Rattle.std.specs.Prelude.{ℕ, List, take, length, ◌≡◌, ◌≤◌};

    ghost Value = { List ℕ };

    ghost view = { λ t. take t.len t.bytes };

    ghost invariant = { λ t. (t.len ≤ 512) × (length t.bytes ≡ 512) };
}

// Copies a piece behind a place, where there is room for it. Answers where it ends.
fn copy_long(bytes: &mut [u8], end: usize, piece: &[u8]) -> usize
    requires room { end + length piece.now ≤ length bytes.old }
    ensures end { result ≡ end + length piece.now }
    ensures front { take result bytes.new ≡ take end bytes.old ++ piece.now }
{
    let new_end = end + piece.len();
    bytes[end..new_end].copy_from_slice(piece);
    new_end
}

// Copies the first N bytes of a piece behind a place, in one move. Answers where they end.
#[inline(always)]
fn copy_front<const N: usize>(bytes: &mut [u8], end: usize, piece: &[u8]) -> usize
    requires enough { N ≤ length piece.now }
    requires room { end + N ≤ length bytes.old }
    ensures end { result ≡ end + N }
    ensures front { take result bytes.new ≡ take end bytes.old ++ take N piece.now }
    ensures len { length bytes.new ≡ length bytes.old }
{
    Simd::<u8, N>::from_slice(piece).copy_to_slice(&mut bytes[end..]);
    end + N
}

// Copies a piece of N to 2 N bytes behind a place: its first N and its last N, which may overlap. Answers where it
// ends.
#[inline(always)]
fn copy_ends<const N: usize>(bytes: &mut [u8], end: usize, piece: &[u8]) -> usize
    requires enough { N ≤ length piece.now }
    requires whole { length piece.now ≤ N + N }
    requires room { end + length piece.now ≤ length bytes.old }
    ensures end { result ≡ end + length piece.now }
    ensures front { take result bytes.new ≡ take end bytes.old ++ piece.now }
{
    let rest = piece.len() - N;
    copy_front::<N>(bytes, end, piece);
    copy_front::<N>(bytes, end + rest, &piece[rest..])
}

// Copies a piece of no more than eight bytes behind a place. Answers where it ends.
#[inline(always)]
fn copy_few(bytes: &mut [u8], end: usize, piece: &[u8]) -> usize
    requires few { length piece.now ≤ 8 }
    requires room { end + length piece.now ≤ length bytes.old }
    ensures end { result ≡ end + length piece.now }
    ensures front { take result bytes.new ≡ take end bytes.old ++ piece.now }
{
    if piece.len() >= 4 {
        copy_ends::<4>(bytes, end, piece)
    } else if piece.len() >= 2 {
        copy_ends::<2>(bytes, end, piece)
    } else if piece.len() == 1 {
        copy_front::<1>(bytes, end, piece)
    } else {
        end
    }
}

// Copies any piece behind a place: a short one takes two moves, and no call. Answers where it ends.
#[inline(always)]
fn copy_behind(bytes: &mut [u8], end: usize, piece: &[u8]) -> usize
    requires room { end + length piece.now ≤ length bytes.old }
    ensures end { result ≡ end + length piece.now }
    ensures front { take result bytes.new ≡ take end bytes.old ++ piece.now }
{
    match piece.len() {
        0..=8 => copy_few(bytes, end, piece),
        9..=16 => copy_ends::<8>(bytes, end, piece),
        17..=32 => copy_ends::<16>(bytes, end, piece),
        _ => copy_long(bytes, end, piece),
    }
}

// Writes the last digits of a number behind a place, so many of them.
#[inline]
fn digits_behind(bytes: &mut [u8], end: usize, count: usize, n: u64)
    requires even { count % 2 ≡ 0 }
    requires room { end + count ≤ length bytes.old }
    ensures front { take end bytes.new ≡ take end bytes.old }
    ensures digits { slice_range bytes.new end (end + count) ≡ padded count n }
{
    write_digits(&mut bytes[end..end + count], n);
}

impl Text {
    /// With no bytes.
    #[inline]
    pub fn new() -> Text
        ensures { result ≡ [] }
    {
        Text {
            bytes: [0; ROOM],
            len: 0,
        }
    }

    /// How many bytes it has.
    #[inline]
    pub fn len(&self) -> usize
        ensures value { result ≡ length self.now }
        ensures within { result ≤ 512 }
    {
        self.len
    }

    /// Takes all bytes off.
    #[inline]
    pub fn clear(&mut self)
        ensures { self.new ≡ [] }
    {
        self.len = 0;
    }

    /// Appends a piece that there is room for.
    #[inline(always)]
    pub fn push(&mut self, piece: &[u8])
        requires room { length self.old + length piece.now ≤ 512 }
        ensures text { self.new ≡ self.old ++ piece.now }
        ensures len { length self.new ≡ length self.old + length piece.now }
    {
        self.len = copy_behind(&mut self.bytes, self.len, piece);
    }

    // So many hexadecimal digits of a number that has no more: N are written, and the first of them kept.
    #[inline]
    fn push_digits<const N: usize>(&mut self, n: u64, count: u32)
        requires even { N % 2 ≡ 0 }
        requires wide { N ≤ 16 }
        requires some { 1 ≤ count }
        requires few { count ≤ N }
        requires fits { n < 16 ^ count }
        requires room { length self.old + 16 ≤ 512 }
        ensures text { self.new ≡ self.old ++ padded count n }
        ensures len { length self.new ≡ length self.old + count }
    {
        digits_behind(&mut self.bytes, self.len, N, n << (4 * (N as u32 - count)));
        self.len += count as usize;
    }

    // So many hexadecimal digits of a number that has no more.
    #[inline(always)]
    pub(crate) fn push_padded(&mut self, n: u64, count: u32)
        requires some { 1 ≤ count }
        requires few { count ≤ 16 }
        requires fits { n < 16 ^ count }
        requires room { length self.old + 16 ≤ 512 }
        ensures text { self.new ≡ self.old ++ padded count n }
        ensures len { length self.new ≡ length self.old + count }
    {
        if count <= 8 {
            self.push_digits::<8>(n, count);
        } else {
            self.push_digits::<16>(n, count);
        }
    }

    // Hexadecimal digits, with no zero in front.
    #[inline(always)]
    pub(crate) fn push_hex(&mut self, n: u64)
        requires room { length self.old + 16 ≤ 512 }
        ensures text { self.new ≡ self.old ++ hex_digits n }
        ensures len { length self.new ≤ length self.old + 16 }
    {
        self.push_padded(n, digit_count(n));
    }

    // The byte enables of a word of so many bytes.
    #[inline]
    pub(crate) fn push_lanes(&mut self, lanes: u8, bytes: u8)
        requires few { bytes ≤ 8 }
        requires room { length self.old + 16 ≤ 512 }
        ensures text { self.new ≡ self.old ++ lanes_text bytes lanes }
        ensures len { length self.new ≤ length self.old + 16 }
    {
        let moved = u64::from(lanes) << (8 - bytes);
        self.push(four_digits(moved / 16 % 16));
        self.push(four_digits(moved % 16));
        self.drop_last(8 - bytes as usize);
    }

    // Takes so many bytes off the end.
    #[inline]
    fn drop_last(&mut self, count: usize)
        requires { count ≤ length self.old }
        ensures { self.new ≡ take (length self.old - count) self.old }
    {
        self.len -= count;
    }

    /// The bytes.
    pub fn as_bytes(&self) -> &[u8]
        ensures { result.now ≡ self.now }
    {
        &self.bytes[..self.len]
    }
}
