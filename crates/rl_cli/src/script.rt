// What is wrong with a line of a script.
use crate::lines::{is_line_end, without_return};
use crate::message::Message;
use crate::names::{Sort, is_name, names_of};
use crate::near::Nearest;
use crate::words_of_script::{FORMS, Form, SEQUENCES, form_of};
use rl_policy::{NumberText, read_number};
use rl_script::{IdentRef, LineFault, PathRef, read_line_ref};
use std::alloc::Global;
use toml::Table;

// Adds the words of a line, up to a comment.
fn add_words<'a>(words: &mut Vec<&'a str>, line: &'a str) -> Option<()> {
    for word in line.split_ascii_whitespace() {
        if word.starts_with('#') {
            break;
        }
        words.push(word).ok()?;
    }
    Some(())
}

// The words of a line, up to a comment.
fn words_of(alloc: Global, line: &[u8]) -> Option<Vec<&str>> {
    let line = str::from_utf8(line).ok()?;
    let mut words = Vec::new(alloc);
    add_words(&mut words, line)?;
    Some(words)
}

// Puts a word that is no command, or no sequence behind `seq`.
fn put_command(message: &mut Message, words: &[&str]) -> Option<()> {
    match words {
        ["seq"] => put_form(message, form_of("seq")?),
        ["seq", name, ..] => message.put_wrong(Nearest::to(name).among(&SEQUENCES)),
        [first, ..] => message.put_wrong(Nearest::to(first).among(&FORMS)),
        [] => {}
    }
    Some(())
}

// Puts what the command takes.
fn put_form(message: &mut Message, form: Form) {
    message.put(": ");
    message.put(form.name);
    message.put(" takes ");
    message.put(form.operands);
}

// Whether an operand isn't spelled as the name or path that it should be.
fn is_misspelled(form: Form, place: usize, word: &str) -> bool {
    if let Some(map) = word.strip_prefix('@') {
        return IdentRef::of(map.as_bytes()).is_none();
    }
    match form.sort {
        Sort::Kind => place == 1 && IdentRef::of(word.as_bytes()).is_none(),
        Sort::Block => place == 2 && word != "*" && PathRef::of(word.as_bytes()).is_none(),
        _ => place == 1 && PathRef::of(word.as_bytes()).is_none(),
    }
}

// The first operand that isn't spelled as it should be.
fn misspelled<'a>(form: Form, words: &[&'a str]) -> Option<&'a str> {
    for (place, word) in words.iter().enumerate().skip(1) {
        if is_misspelled(form, place, word) {
            return Some(*word);
        }
    }
    None
}

// The first operand behind the path that reads as this, if it is read as a number.
fn unread_number<'a>(words: &[&'a str], fault: LineFault) -> Option<&'a str> {
    for word in words.iter().skip(2) {
        match (read_number(word.as_bytes()), fault) {
            (NumberText::Bad, LineFault::BadNumber) => return Some(*word),
            (NumberText::TooLarge, LineFault::NumberTooLarge) => return Some(*word),
            _ => {}
        }
    }
    None
}

fn put_plain(message: &mut Message, word: &str) {
    message.put(": ");
    message.put_word(word);
}

// The word of a line that makes it one that doesn't read, where it is a single one.
fn wrong_word<'a>(form: Form, words: &[&'a str], fault: LineFault) -> Option<&'a str> {
    match fault {
        LineFault::BadName => misspelled(form, words),
        LineFault::BadNumber | LineFault::NumberTooLarge => unread_number(words, fault),
        LineFault::CountOutOfRange if form.name == "burst-read" => words.get(3).copied(),
        _ => None,
    }
}

// Puts what is wrong with a line that doesn't read.
fn put_unread(message: &mut Message, words: &[&str], fault: LineFault) -> Option<()> {
    if matches!(fault, LineFault::NoSuchCommand) {
        return put_command(message, words);
    }
    let form = form_of(words.first()?)?;
    if matches!(fault, LineFault::WrongCount) {
        put_form(message, form);
    } else if let Some(word) = wrong_word(form, words, fault) {
        put_plain(message, word);
    }
    Some(())
}

/// A name of a line, and what it should name.
#[derive(Clone, Copy)]
struct Named<'a> {
    word: &'a str,
    sort: Sort,
}

// The word that names a map, behind its `@`; `*` where there is none.
fn map_of<'a>(words: &[&'a str]) -> &'a str {
    match words {
        [.., word] => word.strip_prefix('@').unwrap_or("*"),
        [] => "*",
    }
}

// The names of a line: a path or a reset kind, and a map.
fn names_in<'a>(words: &[&'a str]) -> Option<(Named<'a>, Named<'a>)> {
    let sort = form_of(words.first()?)?.sort;
    let at = if matches!(sort, Sort::Block) { 2 } else { 1 };
    let word = *words.get(at)?;
    let map = Named {
        word: map_of(words),
        sort: Sort::Map,
    };
    Some((Named { word, sort }, map))
}

// Whether the description doesn't have a name.
fn is_strange(alloc: Global, table: &Table, named: Named<'_>) -> Option<bool> {
    if named.word == "*" {
        return Some(false);
    }
    Some(!is_name(alloc, table, &[named.sort], named.word)?)
}

// The first name of a line that the description doesn't have.
fn first_stranger<'a>(alloc: Global, table: &Table, words: &[&'a str]) -> Option<Named<'a>> {
    let (operand, map) = names_in(words)?;
    if is_strange(alloc, table, operand)? {
        return Some(operand);
    }
    if is_strange(alloc, table, map)? {
        return Some(map);
    }
    None
}

const OTHERS: [Sort; 5] = [
    Sort::Block,
    Sort::File,
    Sort::Register,
    Sort::Field,
    Sort::Memory,
];

// What else a word names.
fn other_sort(alloc: Global, table: &Table, stranger: Named<'_>) -> Option<Sort> {
    if matches!(stranger.sort, Sort::Map | Sort::Kind) {
        return None;
    }
    for sort in &OTHERS {
        if is_name(alloc, table, &[*sort], stranger.word)? {
            return Some(*sort);
        }
    }
    None
}

// Puts a name that the description doesn't have.
fn put_stranger(
    alloc: Global,
    message: &mut Message,
    table: &Table,
    stranger: Named<'_>,
) -> Option<()> {
    if let Some(sort) = other_sort(alloc, table, stranger) {
        put_plain(message, stranger.word);
        message.put(" is ");
        message.put(sort.name());
        message.put(", and ");
        message.put(stranger.sort.name());
        message.put(" is asked for");
    } else {
        let names = names_of(alloc, table, &[stranger.sort])?;
        message.put_wrong(Nearest::to(stranger.word).among(&names));
    }
    Some(())
}

// Puts which byte of a line is no printable ASCII.
fn put_byte(message: &mut Message, line: &[u8]) {
    for (place, byte) in line.iter().enumerate() {
        if !matches!(*byte, b'\t' | b' '..=b'~') {
            message.put(": byte ");
            message.put_number(place.saturating_add(1));
            message.put(" is ");
            return message.put_hex(*byte);
        }
    }
}

// The name of a line that reads which the description doesn't have.
fn stranger_in<'a>(alloc: Global, table: &Table, line: &'a [u8]) -> Option<Named<'a>> {
    first_stranger(alloc, table, &words_of(alloc, line)?)
}

// Why a line doesn't read, if it doesn't.
fn fault_of(alloc: Global, line: &[u8]) -> Option<LineFault> {
    read_line_ref(alloc, line).err()
}

// Puts what there is to say of a line.
fn put_line(alloc: Global, message: &mut Message, table: &Table, line: &[u8]) -> Option<()> {
    match fault_of(alloc, line) {
        None => put_stranger(alloc, message, table, stranger_in(alloc, table, line)?),
        Some(LineFault::NotAscii) => {
            put_byte(message, line);
            Some(())
        }
        Some(fault) => put_unread(message, &words_of(alloc, line)?, fault),
    }
}

// Whether a line is one that is refused in a script of any kind.
fn is_refused(alloc: Global, table: &Table, line: &[u8]) -> bool {
    fault_of(alloc, line).is_some() || stranger_in(alloc, table, line).is_some()
}

/// The lines of a script that are at hand.
#[derive(Clone, Copy)]
pub(crate) struct Lines<'a> {
    pub(crate) bytes: &'a [u8],
    /// They begin with the script's first line, and not somewhere in one.
    pub(crate) first: bool,
}

impl<'a> Lines<'a> {
    // The line of a number, from 1, or else the first that is refused.
    fn refused(self, alloc: Global, table: &Table, number: usize) -> Option<&'a [u8]> {
        for (place, line) in self.bytes.split(is_line_end).enumerate() {
            let line = without_return(line);
            let is_it = if self.first {
                place.saturating_add(1) == number
            } else {
                place > 0 && is_refused(alloc, table, line)
            };
            if is_it {
                return Some(line);
            }
        }
        None
    }
}

// Puts what there is to say of the line that was refused, with the description's table.
fn put_refused(
    alloc: Global,
    message: &mut Message,
    table: &Table,
    lines: Lines<'_>,
    number: usize,
) -> Option<()> {
    put_line(alloc, message, table, lines.refused(alloc, table, number)?)
}

/// Puts what there is to say of the line that was refused.
pub(crate) fn put_refused_line(
    alloc: Global,
    message: &mut Message,
    description: &str,
    lines: Lines<'_>,
    number: usize,
) -> Option<()> {
    let table = toml::table_from_str(alloc, description).ok()?;
    put_refused(alloc, message, &table, lines, number)
}
