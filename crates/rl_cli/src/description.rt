// What is wrong with a description.
use crate::message::Message;
use crate::names::{Sort, fields_of, is_name, names_of, rows_of, text_at};
use crate::near::Nearest;
use crate::rows::{Spot, line_of, line_with};
use itoa::Buffer;
use std::alloc::Global;
use toml::{Table, Value};

const UNKNOWN_KEY: &str = "unknown key";

const ARRAYS: [&str; 7] = ["block", "file", "reg", "mem", "map", "place", "flaw"];

const POLICIES: [&str; 25] = [
    "RO", "RW", "RC", "RS", "WRC", "WRS", "WC", "WS", "WSRC", "WCRS", "W1C", "W1S", "W1T", "W0C",
    "W0S", "W0T", "W1SRC", "W1CRS", "W0SRC", "W0CRS", "WO", "WOC", "WOS", "W1", "WO1",
];

const EXCLUSIONS: [&str; 6] = [
    "NO_REG_TESTS",
    "NO_REG_HW_RESET_TEST",
    "NO_REG_BIT_BASH_TEST",
    "NO_REG_ACCESS_TEST",
    "NO_REG_SHARED_ACCESS_TEST",
    "NO_MEM_WALK_TEST",
];

// The keys of a row of each array, and of a field.
const KEYS: [(&str, &[&str]); 8] = [
    ("block", &["name", "of"]),
    ("file", &["name", "of"]),
    ("reg", &["name", "of", "bytes", "backdoor", "skip", "field"]),
    (
        "reg.field",
        &[
            "name", "lsb", "width", "policy", "volatile", "compare", "alone", "reset",
        ],
    ),
    (
        "mem",
        &["name", "of", "bytes", "size", "access", "backdoor", "skip"],
    ),
    (
        "map",
        &[
            "name",
            "bytes",
            "endian",
            "addressing",
            "base",
            "parent",
            "offset",
            "adapter",
            "predict",
        ],
    ),
    ("place", &["map", "item", "offset", "rights"]),
    (
        "flaw",
        &[
            "kind", "field", "policy", "on", "value", "bit", "map", "from", "to", "nth", "item",
        ],
    ),
];

// The words that a key takes.
const WORDS: [(&str, &[&str]); 9] = [
    ("policy", &POLICIES),
    ("skip", &EXCLUSIONS),
    ("endian", &["little", "big", "little-fifo", "big-fifo"]),
    ("addressing", &["byte", "word"]),
    ("access", &["rw", "ro"]),
    ("rights", &["rw", "ro", "wo"]),
    ("predict", &["implicit", "explicit"]),
    ("adapter", &["plain", "apb"]),
    (
        "kind",
        &[
            "policy",
            "reset",
            "stuck",
            "error-range",
            "error-nth",
            "deaf",
        ],
    ),
];

// What a key names.
const SORTS: [(&str, &[Sort]); 6] = [
    ("of", &[Sort::Block, Sort::File]),
    ("item", &[Sort::Register, Sort::Memory]),
    ("field", &[Sort::Field]),
    ("map", &[Sort::Map]),
    ("parent", &[Sort::Map]),
    ("on", &[Sort::Kind]),
];

// The key whose value a reason is about.
const REASONS: [(&str, &str); 15] = [
    ("bad name", "name"),
    ("duplicate name", "name"),
    ("too deep", "name"),
    ("no such parent", "of"),
    ("bad width", "width"),
    ("bad bytes", "bytes"),
    ("bad size", "size"),
    ("reset too wide", "reset"),
    ("no such map", "map"),
    ("no such adapter", "adapter"),
    ("no such item", "item"),
    ("placed twice", "item"),
    ("memory in fifo", "item"),
    ("address overflow", "offset"),
    ("unaligned", "offset"),
];

// What a table has under a name.
fn under<T: Copy>(table: &[(&str, T)], name: &str) -> Option<T> {
    for (key, value) in table {
        if *key == name {
            return Some(*value);
        }
    }
    None
}

// The keys of a row.
fn keys_of(spot: Spot<'_>) -> &'static [&'static str] {
    let array = if spot.field.is_some() {
        "reg.field"
    } else {
        spot.array
    };
    under(&KEYS, array).unwrap_or(&[])
}

/// What a refusal says of a row: where, and why.
#[derive(Clone, Copy)]
struct Refusal<'a> {
    spot: Spot<'a>,
    reason: &'a str,
}

// The key that a reason by itself tells.
fn key_told(reason: &str) -> Option<&'static str> {
    under(&REASONS, reason)
}

// The key whose value a reason is about.
fn key_of(refusal: Refusal<'_>) -> Option<&str> {
    let reason = refusal.reason;
    match (reason, refusal.spot.array, refusal.spot.field) {
        ("bad width", _, None) => Some("bytes"),
        ("no such map", "map", _) => Some("parent"),
        _ => match key_told(reason) {
            Some(key) => Some(key),
            None => reason
                .strip_prefix("bad value of ")
                .or(reason.strip_prefix("wrong type of ")),
        },
    }
}

// What may stand in place of a wrong word under a key: names of these sorts, and these words.
fn others_of(refusal: Refusal<'_>, key: &str) -> (&'static [Sort], &'static [&'static str]) {
    let reason = refusal.reason;
    if reason == UNKNOWN_KEY {
        return (&[], keys_of(refusal.spot));
    }
    if reason == "bad flaw"
        || reason.starts_with("bad value of ")
        || reason.starts_with("no such ")
    {
        return (sorts_of(key), words_of(key));
    }
    (&[], &[])
}

// What a key names.
fn sorts_of(key: &str) -> &'static [Sort] {
    under(&SORTS, key).unwrap_or(&[])
}

// The words that a key takes.
fn words_of(key: &str) -> &'static [&'static str] {
    under(&WORDS, key).unwrap_or(&[])
}

// The first key of a table that is none of these.
fn unknown_key<'a>(table: &'a Table, keys: &[&'a str]) -> Option<&'a str> {
    for (name, _) in table.iter() {
        let name = name.as_str();
        if !keys.contains(&name) {
            return Some(name);
        }
    }
    None
}

// The first key of a flaw that names what isn't there.
fn first_stranger(alloc: Global, table: &Table, row: &Value) -> Option<&'static str> {
    for key in ["field", "on", "map", "item"] {
        if let Some(word) = text_at(row, key) {
            if !is_name(alloc, table, sorts_of(key), word)? {
                return Some(key);
            }
        }
    }
    None
}

// The first of these values that is none of the words, where it is a text.
fn strange_text<'a>(items: &'a [Value], words: &[&'a str]) -> Option<&'a str> {
    for item in items {
        let text = item.as_str();
        if !words.contains(&text.unwrap_or("")) {
            return text;
        }
    }
    None
}

// A text or a number as a word.
fn word_of<'a>(value: &'a Value, words: &[&'a str], digits: &'a mut Buffer) -> Option<&'a str> {
    match value {
        Value::String(text) => Some(text.as_str()),
        Value::Integer(number) => Some(digits.format(*number)),
        Value::Boolean(truth) => Some(if *truth { "true" } else { "false" }),
        Value::Array(items) => strange_text(items.as_slice(), words),
        _ => None,
    }
}

// The place, from 0, that a number from 1 tells.
fn place_of(number: &str) -> Option<usize> {
    number.parse::<usize>().ok()?.checked_sub(1)
}

// The spot that is told so: `reg 4`, or `reg 4 field 1`.
fn spot_of(place: &str) -> Option<Spot<'_>> {
    let mut words = place.split_ascii_whitespace();
    let array = words.next()?;
    let row = place_of(words.next()?)?;
    let field = match words.nth(1) {
        Some(number) => Some(place_of(number)?),
        None => None,
    };
    Some(Spot { array, row, field })
}

/// The wrong word of a row, and the key that it is under, which is empty where it is a key itself.
#[derive(Clone, Copy)]
struct Wrong<'a> {
    key: &'a str,
    word: Option<&'a str>,
}

// What is wrong in a row. A number is written into the digits.
fn wrong_of<'a>(
    alloc: Global,
    table: &Table,
    row: &'a Value,
    refusal: Refusal<'a>,
    digits: &'a mut Buffer,
) -> Option<Wrong<'a>> {
    if refusal.reason == UNKNOWN_KEY {
        let word = unknown_key(row.as_table()?, keys_of(refusal.spot))?;
        return Some(Wrong {
            key: "",
            word: Some(word),
        });
    }
    let key = if refusal.reason == "bad flaw" {
        first_stranger(alloc, table, row)
    } else {
        key_of(refusal)
    };
    let key = key.unwrap_or("");
    let word = match row.get(key) {
        Some(value) => word_of(value, words_of(key), digits),
        None => None,
    };
    Some(Wrong { key, word })
}

// Puts the place of a row, with its name: `reg 4 (uart) field 1 (mode): `.
fn put_place(message: &mut Message, spot: Spot<'_>, row: &Value, inner: &Value) {
    message.put(spot.array);
    message.put(" ");
    message.put_number(spot.row.saturating_add(1));
    put_label(message, row);
    if let Some(field) = spot.field {
        message.put(" field ");
        message.put_number(field.saturating_add(1));
        put_label(message, inner);
    }
    message.put(": ");
}

// Puts what names a row, in brackets.
fn put_label(message: &mut Message, row: &Value) {
    let label = text_at(row, "name")
        .or(text_at(row, "item"))
        .or(text_at(row, "kind"));
    if let Some(label) = label {
        message.put(" (");
        message.put_word(label);
        message.put(")");
    }
}

// Puts the line of a wrong word, where it is found.
fn put_line_of(message: &mut Message, text: &str, spot: Spot<'_>, row: &Value, wrong: Wrong<'_>) {
    let marks = (wrong.key, wrong.word.unwrap_or(wrong.key));
    if let Some(line) = line_of(text, spot, text_at(row, "name"), marks) {
        message.put_line(line);
    }
}

// Puts a word that is wrong, and the name that is nearest to it where another one is asked for.
fn put_word(
    alloc: Global,
    message: &mut Message,
    table: &Table,
    refusal: Refusal<'_>,
    wrong: Wrong<'_>,
) -> Option<()> {
    let (sorts, words) = others_of(refusal, wrong.key);
    let names = names_of(alloc, table, sorts)?;
    if let Some(word) = wrong.word {
        message.put_wrong(Nearest::to(word).among(&names).among(words));
    }
    Some(())
}

// Puts what is wrong in a row.
fn put_row(
    alloc: Global,
    message: &mut Message,
    text: &str,
    table: &Table,
    refusal: Refusal<'_>,
) -> Option<()> {
    let spot = refusal.spot;
    let row = rows_of(table, spot.array).get(spot.row)?;
    let inner = match spot.field {
        Some(field) => fields_of(row).get(field)?,
        None => row,
    };
    let mut digits = Buffer::new();
    let wrong = wrong_of(alloc, table, inner, refusal, &mut digits)?;
    put_line_of(message, text, spot, inner, wrong);
    put_place(message, spot, row, inner);
    message.put(refusal.reason);
    put_word(alloc, message, table, refusal, wrong)
}

// Puts what is wrong at the top level.
fn put_top(message: &mut Message, text: &str, table: &Table, reason: &str) -> Option<()> {
    let key = match reason.strip_prefix("wrong type of ") {
        Some(key) => key,
        None => unknown_key(table, &ARRAYS)?,
    };
    if let Some(line) = line_with(text, key) {
        message.put_line(line);
    }
    message.put(reason);
    if reason == UNKNOWN_KEY {
        message.put_wrong(Nearest::to(key).among(&ARRAYS));
    }
    Some(())
}

// Puts what a refusal tells, with the description's table.
fn put_told(
    alloc: Global,
    message: &mut Message,
    text: &str,
    table: &Table,
    told: &str,
) -> Option<()> {
    let (place, reason) = told.split_once(": ")?;
    if place.is_empty() {
        return put_top(message, text, table, reason);
    }
    let spot = spot_of(place)?;
    put_row(alloc, message, text, table, Refusal { spot, reason })
}

/// Puts what there is to say of a description that was read and refused, from what the log says after `refused
/// description`.
pub(crate) fn put_refused(
    alloc: Global,
    message: &mut Message,
    text: &str,
    told: &str,
) -> Option<()> {
    let table = toml::table_from_str(alloc, text).ok()?;
    put_told(alloc, message, text, &table, told)
}
