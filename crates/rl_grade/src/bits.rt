// One bit of a register, without a flaw and with it: whether anything can tell the two apart.
ghost use Rattle.std.specs.Prelude.{◌≡◌, ◌&&◌, ◌||◌, if◌then◌else◌};
ghost use Rattle.rl_policy.specs.Table.{after_read, after_write, is_write_only};
ghost use Rattle.rl_grade.specs.Hidden.{for_both, is_alike, is_fixed, is_loose, is_same, is_unseen, keeps_read};
ghost use Rattle.rl_grade.specs.Hidden.{keeps_written, may_hold, reads_alike, writes_alike};

use rl_policy::word::repeated;
use rl_policy::{Policy, read_effect, spends, write_effect, write_only};

/// How a register can be reached.
#[derive(Clone, Copy)]
pub struct Ways {
    /// Some word of it lets writes through.
    pub written: bool,
    /// Some word of it lets reads through.
    pub read: bool,
    /// It has a backdoor.
    pub backdoor: bool,
}

/// A bit of a field, in a device without a flaw and in one with it.
#[derive(Clone, Copy)]
pub struct FlawedBit {
    /// The policy of its field.
    pub own: Policy,
    /// The policy that the device has with the flaw.
    pub other: Policy,
    /// The value at which the flaw holds it.
    pub stuck: Option<bool>,
    /// With the flaw no write reaches it.
    pub deaf: bool,
    /// The hardware may change it.
    pub volatile: bool,
}

pub(crate) fn is_same(a: bool, b: bool) -> bool
    ensures { result ≡ is_same a b }
{
    if a { b } else { !b }
}

// What a write of a bit leaves.
fn after_write(policy: Policy, old: bool, new: bool, spent: bool) -> bool
    ensures { result ≡ after_write policy old new spent }
{
    write_effect(policy, 1, repeated(old), repeated(new), spent) == 1
}

// What a read of it leaves.
fn after_read(policy: Policy, old: bool) -> bool
    ensures { result ≡ after_read policy old }
{
    read_effect(policy, 1, repeated(old)) == 1
}

// ---- a bit that is the same in both devices

fn write_alike(bit: FlawedBit, old: bool, new: bool, spent: bool) -> bool
    ensures { result ≡ is_same (after_write bit.own old new spent)
        (if bit.deaf then old else after_write bit.other old new spent) }
{
    let own = after_write(bit.own, old, new, spent);
    if bit.deaf {
        is_same(own, old)
    } else {
        is_same(own, after_write(bit.other, old, new, spent))
    }
}

fn writes_alike_from(bit: FlawedBit, old: bool) -> bool
    ensures { result ≡ for_both (λ new. for_both (λ spent. is_same (after_write bit.own old new spent)
        (if bit.deaf then old else after_write bit.other old new spent))) }
{
    (write_alike(bit, old, false, false) && write_alike(bit, old, false, true))
        && (write_alike(bit, old, true, false) && write_alike(bit, old, true, true))
}

fn writes_alike(bit: FlawedBit) -> bool
    ensures { result ≡ writes_alike bit }
{
    is_same(spends(bit.own), !bit.deaf && spends(bit.other))
        && (writes_alike_from(bit, false) && writes_alike_from(bit, true))
}

fn reads_alike(bit: FlawedBit) -> bool
    ensures { result ≡ reads_alike bit }
{
    is_same(write_only(bit.own), write_only(bit.other))
        && (is_same(after_read(bit.own, false), after_read(bit.other, false))
            && is_same(after_read(bit.own, true), after_read(bit.other, true)))
}

fn is_loose(stuck: Option<bool>) -> bool
    ensures { result ≡ is_loose stuck }
{
    match stuck {
        None => true,
        Some(_) => false,
    }
}

/// Whether it is the same in both devices, whatever is done.
pub(crate) fn is_alike(ways: Ways, bit: FlawedBit) -> bool
    ensures { result ≡ is_alike ways bit }
{
    is_loose(bit.stuck)
        && ((!ways.written || writes_alike(bit)) && (!ways.read || reads_alike(bit)))
}

/// Whether nothing looks at it.
pub(crate) fn is_unseen(ways: Ways, bit: FlawedBit) -> bool
    ensures { result ≡ is_unseen ways bit }
{
    !ways.backdoor && (!ways.read || (write_only(bit.own) && write_only(bit.other)))
}

// ---- a bit that has one value at each moment

fn keeps_written(value: bool, policy: Policy) -> bool
    ensures { result ≡ keeps_written value policy }
{
    (is_same(after_write(policy, value, false, false), value)
        && is_same(after_write(policy, value, false, true), value))
        && (is_same(after_write(policy, value, true, false), value)
            && is_same(after_write(policy, value, true, true), value))
}

fn keeps_read(value: bool, policy: Policy) -> bool
    ensures { result ≡ keeps_read value policy }
{
    is_same(after_read(policy, value), value)
}

fn may_hold(value: bool, stuck: Option<bool>) -> bool
    ensures { result ≡ may_hold value stuck }
{
    match stuck {
        None => true,
        Some(held) => is_same(held, value),
    }
}

// Writes leave it in both devices.
fn is_kept_by_writes(value: bool, bit: FlawedBit) -> bool
    ensures { result ≡ keeps_written value bit.own && (bit.deaf || keeps_written value bit.other) }
{
    keeps_written(value, bit.own) && (bit.deaf || keeps_written(value, bit.other))
}

// Reads leave it in both devices, and answer the same.
fn is_kept_by_reads(value: bool, bit: FlawedBit) -> bool
    ensures { result ≡ keeps_read value bit.own && (keeps_read value bit.other
        && is_same (is_write_only bit.own) (is_write_only bit.other)) }
{
    keeps_read(value, bit.own)
        && (keeps_read(value, bit.other) && is_same(write_only(bit.own), write_only(bit.other)))
}

/// Whether it has this value at each moment in both devices, if resets give it.
pub(crate) fn is_fixed(value: bool, ways: Ways, bit: FlawedBit) -> bool
    ensures { result ≡ is_fixed value ways bit }
{
    !ways.backdoor
        && (!bit.volatile
            && (may_hold(value, bit.stuck)
                && ((!ways.written || is_kept_by_writes(value, bit))
                    && (!ways.read || is_kept_by_reads(value, bit)))))
}
