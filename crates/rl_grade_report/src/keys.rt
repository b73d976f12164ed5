// A flaw by its kind and its keys, in the two forms in which it is written.
ghost use Rattle.std.specs.Prelude.{◌≡◌, ◌++◌, ◌<◌, codes, flat_map, length, map, OnOk};
ghost use Rattle.rl_flaw.specs.Flaws.{IsFlawOf};
ghost use Rattle.rl_model.specs.Chip.{HasItem};
ghost use Rattle.rl_grade_report.specs.Keys.{deaf_keys, end_of, flaw_text, head_of, key_text, line_of, member_of};
ghost use Rattle.rl_grade_report.specs.Keys.{nth_keys, policy_keys, quoted, range_keys, reset_keys, said_by, stuck_keys};
ghost use Rattle.rl_grade_report.specs.Keys.{value_text, written};
ghost use Rattle.rl_policy.specs.Numbers.{spelled};
ghost use Rattle.rl_grade_report.specs.Lines.{field_name};

use crate::pieces::push_number;
use rl_bench::Flaw;
use rl_map::Layout;
use rl_model::{Chip, Item};
use rl_policy::{Policy, spell};
use rl_session::{front, push_pieces};
use std::alloc::AllocError;

/// How a flaw is written.
#[derive(Clone, Copy)]
pub(crate) enum Form {
    /// As a row of a description.
    Row,
    /// As an object in JSON. Names of a description need no escapes.
    Object,
}

// What a key of a flaw says.
#[derive(Clone, Copy)]
enum Value<'a> {
    // A number, in decimal.
    Number(u64),
    // A number, in hexadecimal and in quotes.
    Hex(u64),
    // A word, in quotes.
    Word(&'a [u8]),
    // A register's path and the name of its field, with a dot between them, in quotes.
    Field(&'a [u8], &'a [u8]),
}

// A key of a flaw.
#[derive(Clone, Copy)]
struct Key<'a> {
    name: &'a [u8],
    value: Value<'a>,
}

/// Appends a number in hexadecimal and in quotes.
pub(crate) fn push_hex(text: &mut Vec<u8>, number: u64) -> Result<(), AllocError>
    ensures { OnOk result (text.new.items ≡ text.old.items ++ quoted (spelled number)) }
{
    let mut digits = [0u8; 16];
    let len = spell(&mut digits, number);
    let pieces: [&[u8]; 3] = [b"\"0x", front(&digits, len), b"\""];
    push_pieces(text, &pieces)
}

// Appends what a key says.
fn push_value(text: &mut Vec<u8>, value: Value<'_>) -> Result<(), AllocError>
    ensures { OnOk result (text.new.items ≡ text.old.items ++ value_text value.entry) }
{
    match value {
        Value::Number(number) => push_number(text, number),
        Value::Hex(number) => push_hex(text, number),
        Value::Word(word) => {
            let pieces: [&[u8]; 3] = [b"\"", word, b"\""];
            push_pieces(text, &pieces)
        }
        Value::Field(reg, name) => {
            let pieces: [&[u8]; 5] = [b"\"", reg, b".", name, b"\""];
            push_pieces(text, &pieces)
        }
    }
}

// Appends a key and what it says, as a line of a row.
fn push_line(text: &mut Vec<u8>, key: Key<'_>) -> Result<(), AllocError>
    ensures { OnOk result (text.new.items ≡ text.old.items ++ line_of (said_by key.entry)) }
{
    let pieces: [&[u8]; 2] = [key.name, b" = "];
    push_pieces(text, &pieces)?;
    push_value(text, key.value)?;
    text.extend_from_slice(b"\n")
}

// Appends a key and what it says, as a further member of an object.
fn push_member(text: &mut Vec<u8>, key: Key<'_>) -> Result<(), AllocError>
    ensures { OnOk result (text.new.items ≡ text.old.items ++ member_of (said_by key.entry)) }
{
    let pieces: [&[u8]; 3] = [b", \"", key.name, b"\": "];
    push_pieces(text, &pieces)?;
    push_value(text, key.value)
}

fn push_key(text: &mut Vec<u8>, form: Form, key: Key<'_>) -> Result<(), AllocError>
    ensures { OnOk result (text.new.items ≡ text.old.items ++ key_text form (said_by key.entry)) }
{
    match form {
        Form::Row => push_line(text, key),
        Form::Object => push_member(text, key),
    }
}

fn push_keys(text: &mut Vec<u8>, form: Form, keys: &[Key<'_>]) -> Result<(), AllocError>
    ensures { OnOk result (text.new.items ≡ text.old.items ++ flat_map (λ k. key_text form (said_by k)) keys.now) }
{
    for key in keys {
        push_key(text, form, *key)?;
    }
    Ok(())
}

// Appends what stands before the keys.
fn push_head(text: &mut Vec<u8>, form: Form, kind: &[u8]) -> Result<(), AllocError>
    ensures { OnOk result (text.new.items ≡ text.old.items ++ head_of form kind.now) }
{
    match form {
        Form::Row => {
            let pieces: [&[u8]; 3] = [b"[[flaw]]\nkind = \"", kind, b"\"\n"];
            push_pieces(text, &pieces)
        }
        Form::Object => {
            let pieces: [&[u8]; 3] = [b"\n{\"kind\": \"", kind, b"\""];
            push_pieces(text, &pieces)
        }
    }
}

// What stands behind the keys.
fn end_of(form: Form) -> &'static [u8]
    ensures { result.now ≡ end_of form }
{
    match form {
        Form::Row => b"",
        Form::Object => b"}",
    }
}

// Appends a flaw of this kind with these keys.
fn push_written(
    text: &mut Vec<u8>,
    form: Form,
    kind: &[u8],
    keys: &[Key<'_>],
) -> Result<(), AllocError>
    ensures { OnOk result (text.new.items ≡ text.old.items ++ written form kind.now (map said_by keys.now)) }
{
    push_head(text, form, kind)?;
    push_keys(text, form, keys)?;
    text.extend_from_slice(end_of(form))
}

// What names a field.
fn field_value(chip: &Chip, field: u32) -> Value<'_>
    requires { field < length chip.now.fields }
    ensures { value_text result ≡ quoted (field_name chip.now field) }
{
    let reg = chip.field(field).reg;
    Value::Field(chip.path(Item::Reg(reg)), chip.field_name(field))
}

fn push_stuck(
    text: &mut Vec<u8>,
    form: Form,
    chip: &Chip,
    field: u32,
    bit: u32,
    value: bool,
) -> Result<(), AllocError>
    requires { field < length chip.now.fields }
    ensures { OnOk result (text.new.items ≡ text.old.items
        ++ written form (codes "stuck") (stuck_keys chip.now field bit value)) }
{
    let keys = [
        Key {
            name: b"field",
            value: field_value(chip, field),
        },
        Key {
            name: b"bit",
            value: Value::Number(u64::from(bit)),
        },
        Key {
            name: b"value",
            value: Value::Number(u64::from(value)),
        },
    ];
    push_written(text, form, b"stuck", &keys)
}

fn push_reset(
    text: &mut Vec<u8>,
    form: Form,
    chip: &Chip,
    field: u32,
    kind: u32,
    value: u64,
) -> Result<(), AllocError>
    requires field { field < length chip.now.fields }
    requires kind { kind < length chip.now.kinds }
    ensures { OnOk result (text.new.items ≡ text.old.items
        ++ written form (codes "reset") (reset_keys chip.now field kind value)) }
{
    let keys = [
        Key {
            name: b"field",
            value: field_value(chip, field),
        },
        Key {
            name: b"on",
            value: Value::Word(chip.kind_name(kind)),
        },
        Key {
            name: b"value",
            value: Value::Hex(value),
        },
    ];
    push_written(text, form, b"reset", &keys)
}

fn push_policy(
    text: &mut Vec<u8>,
    form: Form,
    chip: &Chip,
    field: u32,
    policy: Policy,
) -> Result<(), AllocError>
    requires { field < length chip.now.fields }
    ensures { OnOk result (text.new.items ≡ text.old.items
        ++ written form (codes "policy") (policy_keys chip.now field policy)) }
{
    let keys = [
        Key {
            name: b"field",
            value: field_value(chip, field),
        },
        Key {
            name: b"policy",
            value: Value::Word(policy.name().as_bytes()),
        },
    ];
    push_written(text, form, b"policy", &keys)
}

fn push_range(
    text: &mut Vec<u8>,
    form: Form,
    layout: &Layout,
    port: u32,
    from: u64,
    to: u64,
) -> Result<(), AllocError>
    requires { port < length layout.now.ports }
    ensures { OnOk result (text.new.items ≡ text.old.items
        ++ written form (codes "error-range") (range_keys layout.now port from to)) }
{
    let keys = [
        Key {
            name: b"map",
            value: Value::Word(layout.map_name(layout.port_map(port))),
        },
        Key {
            name: b"from",
            value: Value::Hex(from),
        },
        Key {
            name: b"to",
            value: Value::Hex(to),
        },
    ];
    push_written(text, form, b"error-range", &keys)
}

fn push_nth(text: &mut Vec<u8>, form: Form, nth: u64) -> Result<(), AllocError>
    ensures { OnOk result (text.new.items ≡ text.old.items ++ written form (codes "error-nth") (nth_keys nth)) }
{
    let keys = [Key {
        name: b"nth",
        value: Value::Number(nth),
    }];
    push_written(text, form, b"error-nth", &keys)
}

fn push_deaf(text: &mut Vec<u8>, form: Form, chip: &Chip, item: Item) -> Result<(), AllocError>
    requires { HasItem chip.now item }
    ensures { OnOk result (text.new.items ≡ text.old.items ++ written form (codes "deaf") (deaf_keys chip.now item)) }
{
    let keys = [Key {
        name: b"item",
        value: Value::Word(chip.path(item)),
    }];
    push_written(text, form, b"deaf", &keys)
}

/// Appends a flaw.
///
/// # Errors
///
/// Want of memory.
pub(crate) fn push_flaw(
    text: &mut Vec<u8>,
    form: Form,
    chip: &Chip,
    layout: &Layout,
    flaw: Flaw,
) -> Result<(), AllocError>
    requires { IsFlawOf chip.now layout.now flaw }
    ensures { OnOk result (text.new.items ≡ text.old.items ++ flaw_text form chip.now layout.now flaw) }
{
    match flaw {
        Flaw::Stuck { field, bit, value } => push_stuck(text, form, chip, field, bit, value),
        Flaw::OtherReset { field, kind, value } => push_reset(text, form, chip, field, kind, value),
        Flaw::OtherPolicy { field, policy } => push_policy(text, form, chip, field, policy),
        Flaw::ErrorRange { port, from, to } => push_range(text, form, layout, port, from, to),
        Flaw::ErrorNth { nth } => push_nth(text, form, nth),
        Flaw::Deaf { item } => push_deaf(text, form, chip, item),
    }
}
