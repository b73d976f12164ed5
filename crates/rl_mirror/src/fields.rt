//! The fields of a register, and words that are made field by field.
ghost use Rattle.std.specs.Prelude.{◌≡◌, ℕ, ◌+◌, ◌^◌, ◌<◌, ◌≤◌, ◌&&◌, ◌==◌, not, length};
ghost use Rattle.rl_policy.specs.Bits.{bit};
ghost use Rattle.rl_policy.specs.Table.{spends_mark};
ghost use Rattle.rl_model.specs.Chip.{IsSound};
ghost use Rattle.rl_mirror.specs.Compared.{is_compared, differing};
ghost use Rattle.rl_mirror.specs.Effect.{effect_bit};
ghost use Rattle.rl_model.specs.Fields.{field_of, first_of, count_of, size_of, fields_of, field_in, policy_in, policy_at};
ghost use Rattle.rl_mirror.specs.Fields.{word_by_field, owned, chosen_bits, part_of};
ghost use Rattle.rl_mirror.specs.Mirror.{IsValueOf, marks_in, marked_bits};
ghost use Rattle.rl_mirror.specs.Prediction.{shown, left_by_read, told_bits, spent_after};
ghost use Rattle.rl_policy.specs.Masks.{bits_written};

use crate::effect::Effect;
use rl_model::{Chip, Field};
use rl_policy::policy::{spends, write_only};
use rl_policy::word::{replaced, take, window};

/// Whether a set of a register's fields has the `k`-th one, counted from 0.
pub(crate) fn has_field(fields: u64, k: u32) -> bool
    requires { k < 64 }
    ensures { result ≡ bit fields k }
{
    (fields >> k) & 1 == 1
}

/// How many fields a register has.
pub fn field_count(chip: &Chip, reg: u32) -> u32
    requires { reg < length chip.now.regs }
    ensures count { result ≡ length (fields_of chip.now reg) }
    ensures few { result ≤ 64 }
    ensures sound { IsSound chip.now }
{
    chip.field_count(reg)
}

/// The number, counted through all registers, of the `k`-th field of a register.
pub fn field_number(chip: &Chip, reg: u32, k: u32) -> u32
    requires reg { reg < length chip.now.regs }
    requires field { k < length (fields_of chip.now reg) }
    ensures number { result ≡ first_of chip.now reg + k }
    ensures within { result < length chip.now.fields }
{
    chip.first_field(reg) + k
}

/// The `k`-th field of a register.
pub fn field_at(chip: &Chip, reg: u32, k: u32) -> Field
    requires reg { reg < length chip.now.regs }
    requires field { k < length (fields_of chip.now reg) }
    ensures field { result ≡ (field_in (fields_of chip.now reg) k).shape }
    ensures some { 1 ≤ result.width }
    ensures inside { result.lsb + result.width ≤ 64 }
{
    chip.field(field_number(chip, reg, k))
}

/// The field of this number, counted through all registers.
pub(crate) fn numbered_field(chip: &Chip, field: u32) -> Field
    requires { field < length chip.now.fields }
    ensures sound { IsSound chip.now }
    ensures field { result ≡ (field_of chip.now field).shape }
    ensures reg { result.reg < length chip.now.regs }
    ensures some { 1 ≤ result.width }
    ensures inside { result.lsb + result.width ≤ 64 }
{
    chip.field(field)
}

/// The spent mark of the `k`-th field of a register, among the marks of all fields; none is set past their
/// end.
fn mark_at(chip: &Chip, reg: u32, k: u32, spent: &[bool]) -> bool
    requires reg { reg < length chip.now.regs }
    requires field { k < length (fields_of chip.now reg) }
    ensures { result ≡ marks_in chip.now spent.now reg k }
{
    let number = field_number(chip, reg, k) as usize;
    number < spent.len() && spent[number]
}

/// The word with what is asked of each field, and 0 in the bits without a field.
///
/// It is inlined so that each caller's loop has the one effect that the caller asks for.
#[inline(always)]
pub(crate) fn assembled(chip: &Chip, reg: u32, spent: &[bool], effect: Effect) -> u64
    requires { reg < length chip.now.regs }
    ensures sound { IsSound chip.now }
    ensures held { IsValueOf chip.now reg result }
    ensures value { result ≡ word_by_field (fields_of chip.now reg)
        (λ k b. effect_bit effect (policy_in (fields_of chip.now reg) k) (marks_in chip.now spent.now reg k) b) }
{
    let mut word = 0;
    for k in 0..field_count(chip, reg) {
        let field = field_at(chip, reg, k);
        let by = effect.on(field.policy, mark_at(chip, reg, k, spent));
        word = replaced(word, by, window(field.lsb, field.width));
    }
    word
}

/// The bits of some fields of a register.
#[inline(never)]
fn some_chosen(chip: &Chip, reg: u32, fields: u64) -> u64
    requires { reg < length chip.now.regs }
    ensures { result ≡ chosen_bits (fields_of chip.now reg) fields }
{
    let mut word = 0u64;
    for k in 0..field_count(chip, reg) {
        let field = field_at(chip, reg, k);
        if has_field(fields, k) {
            word |= window(field.lsb, field.width);
        }
    }
    word
}

/// The bits of the fields of a set.
pub(crate) fn chosen(chip: &Chip, reg: u32, fields: u64) -> u64
    requires { reg < length chip.now.regs }
    ensures sound { IsSound chip.now }
    ensures bits { result ≡ chosen_bits (fields_of chip.now reg) fields }
{
    let owned = chip.effects(reg).owned;
    if fields == u64::MAX {
        owned
    } else {
        some_chosen(chip, reg, fields)
    }
}

/// The bits of the fields of a set which a read shows.
pub(crate) fn told(chip: &Chip, reg: u32, fields: u64) -> u64
    requires { reg < length chip.now.regs }
    ensures sound { IsSound chip.now }
    ensures bits { result ≡ told_bits (fields_of chip.now reg) fields }
{
    chosen(chip, reg, fields) & chip.effects(reg).shown
}

/// The bits with a spent mark, as far as a write of these places asks for them.
fn asked_marks(chip: &Chip, reg: u32, spent: &[bool], places: u64) -> u64
    requires { reg < length chip.now.regs }
    ensures { (bits : ℕ) → (word : ℕ) → bits_written (policy_at (fields_of chip.now reg)) bits result word places
        ≡ bits_written (policy_at (fields_of chip.now reg)) bits (marked_bits chip.now spent.now reg) word places }
{
    if chip.effects(reg).spending & places == 0 {
        0
    } else {
        assembled(chip, reg, spent, Effect::Mark)
    }
}

/// The bits of a register after a write of these places of `word`, where it held `bits`.
pub(crate) fn written_over(
    chip: &Chip,
    reg: u32,
    spent: &[bool],
    bits: u64,
    word: u64,
    places: u64,
) -> u64
    requires { reg < length chip.now.regs }
    ensures { result ≡ bits_written (policy_at (fields_of chip.now reg)) bits
        (marked_bits chip.now spent.now reg) word places }
{
    let marks = asked_marks(chip, reg, spent, places);
    let (written, _) = chip.effects(reg).write(bits, marks, word, places);
    written
}

/// What a read of all fields answers where the register holds these bits.
pub fn shown(chip: &Chip, reg: u32, bits: u64) -> u64
    requires { reg < length chip.now.regs }
    ensures value { result ≡ shown (fields_of chip.now reg) bits }
    ensures fits { result < 256 ^ size_of chip.now reg }
{
    chip.effects(reg).shown & bits
}

/// The bits of the register after a read of all fields, where it held these.
pub fn left_by_read(chip: &Chip, reg: u32, bits: u64) -> u64
    requires { reg < length chip.now.regs }
    ensures value { result ≡ left_by_read (fields_of chip.now reg) bits }
    ensures fits { result < 256 ^ size_of chip.now reg }
{
    let effects = chip.effects(reg);
    let (_, left) = effects.read(bits, u64::MAX);
    effects.owned & left
}

/// These bits of the register, as far as they belong to a field.
pub fn owned(chip: &Chip, reg: u32, bits: u64) -> u64
    requires { reg < length chip.now.regs }
    ensures value { result ≡ owned (fields_of chip.now reg) bits }
    ensures fits { result < 256 ^ size_of chip.now reg }
    ensures held { IsValueOf chip.now reg result }
{
    chip.effects(reg).owned & bits
}

/// Whether a write of the fields of the set spends the `k`-th one.
fn spends_field(chip: &Chip, reg: u32, fields: u64, k: u32) -> bool
    requires reg { reg < length chip.now.regs }
    requires field { k < length (fields_of chip.now reg) }
    requires few { k < 64 }
    ensures { result ≡ (bit fields k && spends_mark (policy_in (fields_of chip.now reg) k)) }
{
    spends(field_at(chip, reg, k).policy) && has_field(fields, k)
}

/// Marks the fields of the set that take one write alone as spent; `places` are the bits of the set.
pub(crate) fn spend(chip: &Chip, reg: u32, fields: u64, places: u64, spent: &mut [bool])
    requires reg { reg < length chip.now.regs }
    requires places { places ≡ chosen_bits (fields_of chip.now reg) fields }
    requires marks { length spent.old ≡ length chip.now.fields }
    ensures { spent.new ≡ spent_after chip.now reg fields spent.old }
{
    if chip.effects(reg).spending & places == 0 {
        return;
    }
    for k in 0..field_count(chip, reg) {
        if !spends_field(chip, reg, fields, k) {
            continue;
        }
        spent[field_number(chip, reg, k) as usize] = true;
    }
}

/// Whether a check compares a field and finds other bits than the mirrored ones.
fn differs(field: &Field, read: u64, mirrored: u64) -> bool
    requires some { 1 ≤ field.now.width }
    requires inside { field.now.lsb + field.now.width ≤ 64 }
    ensures { result ≡ (is_compared field.now && not (part_of field.now read == part_of field.now mirrored)) }
{
    field.compare
        && !write_only(field.policy)
        && take(read, field.lsb, field.width) != take(mirrored, field.lsb, field.width)
}

/// The compared fields whose bits were read otherwise than they are mirrored; bit `k` stands for the
/// register's `k`-th field.
pub(crate) fn differing(chip: &Chip, reg: u32, read: u64, mirrored: u64) -> u64
    requires { reg < length chip.now.regs }
    ensures value { result ≡ differing (fields_of chip.now reg) read mirrored }
    ensures fits { result < 2 ^ count_of chip.now reg }
{
    if read == mirrored {
        return 0;
    }
    let mut fields = 0;
    for k in 0..field_count(chip, reg) {
        if !differs(&field_at(chip, reg, k), read, mirrored) {
            continue;
        }
        fields |= window(k, 1);
    }
    fields
}
