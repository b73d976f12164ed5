//! Names, and paths of names.
ghost use Rattle.std.specs.Prelude.{◌≡◌, ◌≤◌, ℕ, not, if◌then◌else◌, List, length, Some, None, IsTrue, IfOk};
ghost use Rattle.std.specs.List.{list_all, position_or_len};
ghost use Rattle.rl_script.specs.Names as spec;
ghost use Rattle.rl_script.specs.Names.{is_path, is_name};

use std::alloc::{AllocError, Global};
use std::marker::Model;

/// A path of 1 to 9 names, joined by `.`, as of a block, register, field or memory.
///
/// A name is a letter or `_`, then letters, digits and `_`, 1 to 32 bytes of ASCII.
#[derive(Debug, Drop)]
pub struct Path {
    text: Vec<u8>,
}

impl Model for Path {
    ghost Value = { List ℕ };

    ghost view = { λ p. p.text.items };

    ghost invariant = { λ p. IsTrue (is_path p.text.items) };
}

impl Path {
    /// The path that a text is, where it is one.
    pub fn of(text: Vec<u8>) -> Option<Path>
        ensures { result ≡ (if is_path text.items then Some text.items else None) }
    {
        if is_path(&text) {
            Some(Path { text })
        } else {
            None
        }
    }

    /// The bytes of the path.
    pub fn text(&self) -> &[u8]
        ensures text { result.now ≡ self.now }
        ensures path { IsTrue (is_path result.now) }
    {
        self.text.as_slice()
    }

    pub(crate) fn by_ref(&self) -> PathRef<'_>
        ensures { result ≡ self.now }
    {
        PathRef { text: self.text() }
    }
}

/// One name, as of a map or a reset kind: a letter or `_`, then letters, digits and `_`, 1 to 32 bytes.
#[derive(Debug, Drop)]
pub struct Ident {
    text: Vec<u8>,
}

impl Model for Ident {
    ghost Value = { List ℕ };

    ghost view = { λ n. n.text.items };

    ghost invariant = { λ n. IsTrue (is_name n.text.items) };
}

impl Ident {
    /// The name that a text is, where it is one.
    pub fn of(text: Vec<u8>) -> Option<Ident>
        ensures { result ≡ (if is_name text.items then Some text.items else None) }
    {
        if is_name(&text) {
            Some(Ident { text })
        } else {
            None
        }
    }

    /// The bytes of the name.
    pub fn text(&self) -> &[u8]
        ensures text { result.now ≡ self.now }
        ensures name { IsTrue (is_name result.now) }
    {
        self.text.as_slice()
    }

    pub(crate) fn by_ref(&self) -> IdentRef<'_>
        ensures { result ≡ self.now }
    {
        IdentRef { text: self.text() }
    }
}

/// A path that is in the text of a line.
#[derive(Debug, Drop)]
pub struct PathRef<'a> {
    text: &'a [u8],
}

impl<'a> Model for PathRef<'a> {
    ghost Value = { List ℕ };

    ghost view = { λ p. p.text.now };

    ghost invariant = { λ p. IsTrue (is_path p.text.now) };
}

impl<'a> PathRef<'a> {
    /// The path that a text is, where it is one.
    pub fn of(text: &'a [u8]) -> Option<PathRef<'a>>
        ensures { result ≡ (if is_path text.now then Some text.now else None) }
    {
        if is_path(text) {
            Some(PathRef { text })
        } else {
            None
        }
    }

    /// The bytes of the path.
    pub fn text(&self) -> &'a [u8]
        ensures text { result.now ≡ self.now }
        ensures path { IsTrue (is_path result.now) }
    {
        self.text
    }

    /// The path with a text of its own.
    pub fn to_path(&self, alloc: Global) -> Result<Path, AllocError>
        ensures { IfOk result (λ path. path ≡ self.now) }
    {
        Ok(Path {
            text: Vec::from_slice(alloc, self.text)?,
        })
    }
}

/// A name that is in the text of a line.
#[derive(Debug, Drop)]
pub struct IdentRef<'a> {
    text: &'a [u8],
}

impl<'a> Model for IdentRef<'a> {
    ghost Value = { List ℕ };

    ghost view = { λ n. n.text.now };

    ghost invariant = { λ n. IsTrue (is_name n.text.now) };
}

impl<'a> IdentRef<'a> {
    /// The name that a text is, where it is one.
    pub fn of(text: &'a [u8]) -> Option<IdentRef<'a>>
        ensures { result ≡ (if is_name text.now then Some text.now else None) }
    {
        if is_name(text) {
            Some(IdentRef { text })
        } else {
            None
        }
    }

    /// The bytes of the name.
    pub fn text(&self) -> &'a [u8]
        ensures text { result.now ≡ self.now }
        ensures name { IsTrue (is_name result.now) }
    {
        self.text
    }

    /// The name with a text of its own.
    pub fn to_ident(&self, alloc: Global) -> Result<Ident, AllocError>
        ensures { IfOk result (λ name. name ≡ self.now) }
    {
        Ok(Ident {
            text: Vec::from_slice(alloc, self.text)?,
        })
    }
}

/// The name where it is, if there is one.
pub(crate) fn name_ref(name: &Option<Ident>) -> Option<IdentRef<'_>>
    ensures { result ≡ name.now }
{
    match name {
        Some(name) => Some(name.by_ref()),
        None => None,
    }
}

#[tactic(auto, unfolding(crate::specs::Names::is_name))]
pub(crate) fn is_name(text: &[u8]) -> bool
    ensures { result ≡ spec.is_name text.now }
{
    match text {
        [first, rest @ ..] => begins_name(*first) && are_in_name(rest) && rest.len() < 32,
        [] => false,
    }
}

// Each byte that a name may have stands at its own place, and a dot at every other place.
static IN_NAMES: [u8; 256] = *b"\
    ................................\
    ................0123456789......\
    .ABCDEFGHIJKLMNOPQRSTUVWXYZ...._\
    .abcdefghijklmnopqrstuvwxyz.....\
    ................................\
    ................................\
    ................................\
    ................................";

// Letters and `_` stand higher than the digits, the dot lower.
fn begins_name(byte: u8) -> bool
    ensures { result ≡ spec.begins_name byte }
{
    IN_NAMES[byte as usize] > b'9'
}

fn is_in_name(byte: u8) -> bool
    ensures { result ≡ spec.is_in_name byte }
{
    IN_NAMES[byte as usize] != b'.'
}

fn are_in_name(text: &[u8]) -> bool
    ensures { result ≡ list_all spec.is_in_name text.now }
{
    text.iter().all(|byte| is_in_name(*byte))
}

/// How many bytes in front may be in a name.
fn count_in_name(text: &[u8]) -> usize
    ensures count { result ≡ position_or_len (λ byte. not (spec.is_in_name byte)) text.now }
    ensures within { result ≤ length text.now }
{
    text.iter()
        .position(|byte| !is_in_name(*byte))
        .unwrap_or(text.len())
}

/// Goes name by name: the first byte, those after it, and the dot.
// Not inlined, since its loops stay tighter by themselves.
#[inline(never)]
pub(crate) fn is_path(text: &[u8]) -> bool
    ensures { result ≡ spec.is_path text.now }
{
    let mut names = 1usize;
    let mut rest = text;
    while let [first, behind @ ..] = rest {
        if !begins_name(*first) {
            return false;
        }
        let len = count_in_name(behind);
        if len >= 32 {
            return false;
        }
        let [dot, next @ ..] = &behind[len..] else {
            return true;
        };
        if *dot != b'.' || names == 9 {
            return false;
        }
        names += 1;
        rest = next;
    }
    false
}
