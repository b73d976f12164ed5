//! The rows at an address, of a register and of a field, found by halves.
ghost use Rattle.std.specs.Prelude.{◌≡◌, ◌≢◌, ◌+◌, ◌*◌, ◌^◌, ◌<◌, ◌≤◌, ◌==◌, length, true, false, nat_lt};
ghost use Rattle.std.specs.Prelude.{slice_get, slice_index_or, filter, IfSome, option_copied};
ghost use Rattle.std.specs.List.Sorted.{IsNonDecreasingBy};
ghost use Rattle.rl_bus.specs.Setup.{stands_at, stands_for};
ghost use Rattle.rl_bus.specs.declared.table.WordRow.{WordRow as Words};
ghost use Rattle.rl_map.specs.Layout.{key_of};
ghost use Rattle.rl_bench.specs.Stretch.{IsStretch, AllBefore, NoneBefore, AreOrdered, stands_beside, LetsThrough};

use rl_bus::{FieldRow, ResetRow, WordRow};

/// The rows from `first` to before `end`.
#[derive(Clone, Copy)]
pub struct Stretch {
    /// The number of the first row.
    pub first: usize,
    /// The number after the last row.
    pub end: usize,
}

/// A word at an address, and how many words of its direction are there.
#[derive(Clone, Copy)]
pub struct Here<'a> {
    /// The word, where there is one.
    pub word: Option<&'a WordRow>,
    /// How many words there are.
    pub count: usize,
}

/// The place of an address in the order by port and address.
fn key(port: u32, address: u64) -> u128
    ensures { result ≡ port * 2 ^ 64 + address }
{
    u128::from(port) * (u128::from(u64::MAX) + 1) + u128::from(address)
}

fn is_before(word: &WordRow, port: u32, address: u64) -> bool
    ensures { result ≡ nat_lt (key_of word.now) (port * 2 ^ 64 + address) }
{
    key(word.port, word.address) < key(port, address)
}

/// Whether a word is at an address of a port.
pub fn stands_at(word: &WordRow, port: u32, address: u64) -> bool
    ensures test { result ≡ stands_at port address word.now }
    ensures key { stands_at port address word.now ≡ false → key_of word.now ≢ port * 2 ^ 64 + address }
{
    let at = word.address;
    word.port == port && at == address
}

// Whether the words before this one stand before an address, and it and those behind it do not.
fn is_first(words: &[WordRow], first: usize, port: u32, address: u64) -> bool
    requires { AreOrdered words.now }
    ensures within { result ≡ true → first ≤ length words.now }
    ensures before { result ≡ true → AllBefore words.now first port address }
    ensures behind { result ≡ true → NoneBefore words.now first port address }
{
    if first >= words.len() || is_before(&words[first], port, address) {
        return false;
    }
    first == 0 || is_before(&words[first - 1], port, address)
}

// The first word that doesn't stand before an address.
fn search(words: &[WordRow], port: u32, address: u64) -> usize
    requires { AreOrdered words.now }
    ensures within { result ≤ length words.now }
    ensures before { AllBefore words.now result port address }
    ensures behind { NoneBefore words.now result port address }
{
    words.partition_point(|word| is_before(word, port, address))
}

// The first word that doesn't stand before an address, if it is a row from the one before the words near to the
// second one behind them.
fn first_beside(words: &[WordRow], near: Stretch, port: u32, address: u64) -> Option<usize>
    requires { AreOrdered words.now }
    ensures within { IfSome result (λ first. first ≤ length words.now) }
    ensures before { IfSome result (λ first. AllBefore words.now first port address) }
    ensures behind { IfSome result (λ first. NoneBefore words.now first port address) }
{
    let low = near.first.saturating_sub(2);
    let end = words.len().min(near.end.saturating_add(2));
    if low >= end
        || !is_before(&words[low], port, address)
        || is_before(&words[end - 1], port, address)
    {
        return None;
    }
    for first in low + 1..end {
        if !is_before(&words[first], port, address) {
            return Some(first);
        }
    }
    None
}

// The first word that doesn't stand before an address. Mostly it is the row behind the words near, or another one
// beside them.
fn first_from(words: &[WordRow], near: Stretch, port: u32, address: u64) -> usize
    requires { AreOrdered words.now }
    ensures within { result ≤ length words.now }
    ensures before { AllBefore words.now result port address }
    ensures behind { NoneBefore words.now result port address }
{
    if is_first(words, near.end, port, address) {
        return near.end;
    }
    match first_beside(words, near, port, address) {
        Some(first) => first,
        None => search(words, port, address),
    }
}

/// The words at an address of a port. They are found at once where they are near, at these words or
/// after them.
pub fn words_at(words: &[WordRow], near: Stretch, port: u32, address: u64) -> Stretch
    requires { AreOrdered words.now }
    ensures { IsStretch (stands_at port address) words.now result.first result.end }
{
    let first = first_from(words, near, port, address);
    for end in first..words.len() {
        if !stands_at(&words[end], port, address) {
            return Stretch { first, end };
        }
    }
    Stretch {
        first,
        end: words.len(),
    }
}

/// Whether the word at `j` is at the address of the word at `k`.
fn same_address(words: &[WordRow], j: usize, k: usize) -> bool
    requires j { j < length words.now }
    requires k { k < length words.now }
    ensures { result ≡ false → (d : Words)
        → key_of (slice_index_or words.now j d) ≢ key_of (slice_index_or words.now k d) }
{
    let word = &words[k];
    stands_at(&words[j], word.port, word.address)
}

/// The words at the address of the word at `k`.
pub fn words_beside(words: &[WordRow], k: usize) -> Stretch
    requires rise { AreOrdered words.now }
    requires k { k < length words.now }
    ensures { (d : Words) → IsStretch (stands_beside (slice_index_or words.now k d)) words.now result.first result.end }
{
    let word = &words[k];
    let alone = Stretch {
        first: k,
        end: k + 1,
    };
    if k > 0 && same_address(words, k - 1, k) {
        return words_at(words, alone, word.port, word.address);
    }
    if k + 1 < words.len() && same_address(words, k, k + 1) {
        return words_at(words, alone, word.port, word.address);
    }
    alone
}

/// The fields of a register.
pub fn fields_of(fields: &[FieldRow], reg: u32) -> Stretch
    requires { IsNonDecreasingBy (λ f. f.reg) fields.now }
    ensures { IsStretch (λ f. f.reg == reg) fields.now result.first result.end }
{
    let first = fields.partition_point(|row| row.reg < reg);
    let end = fields.partition_point(|row| row.reg <= reg);
    Stretch { first, end }
}

/// The reset values of a field.
pub fn resets_of(resets: &[ResetRow], field: u32) -> Stretch
    requires { IsNonDecreasingBy (λ r. r.field) resets.now }
    ensures { IsStretch (λ r. r.field == field) resets.now result.first result.end }
{
    let first = resets.partition_point(|row| row.field < field);
    let end = resets.partition_point(|row| row.field <= field);
    Stretch { first, end }
}

// Whether a word lets items of a direction through.
fn lets_through(word: &WordRow, write: bool) -> bool
    ensures { LetsThrough word.now write result }
{
    if write { word.writes } else { word.reads }
}

/// The word at the beat among those of the direction at an address.
pub fn find_word(
    words: &[WordRow],
    at: Stretch,
    port: u32,
    address: u64,
    write: bool,
    beat: u32,
) -> Here<'_>
    requires { IsStretch (stands_at port address) words.now at.first at.end }
    ensures word { option_copied result.word ≡ slice_get (filter (stands_for port address write) words.now) beat }
    ensures count { result.count ≡ length (filter (stands_for port address write) words.now) }
{
    let mut found = None;
    let mut count = 0;
    for k in at.first..at.end {
        let word = &words[k];
        if !lets_through(word, write) {
            continue;
        }
        if beat as usize == count {
            found = Some(word);
        }
        count += 1;
    }
    Here { word: found, count }
}
