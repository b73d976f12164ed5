//! The conditions that parts must meet.
ghost use Rattle.std.specs.Prelude.{◌≡◌, ◌+◌, ◌*◌, ◌<◌, ◌≤◌, ◌++◌, ◌∷◌, [], ⊤, IfOk, IfErr, OnOk, OnErr, length};
ghost use Rattle.std.specs.Prelude.{◌^◌, bytes_eq, false, true, nat_lt, nat_le};
ghost use Rattle.std.specs.List.{list_any, list_all};
ghost use Rattle.rl_model.specs.Rules.{is_letter, is_name_byte, is_name, path_of, names_in, has_parent, first_of};
ghost use Rattle.rl_model.specs.Rules.{row_checks, path_checks, path_fault, overlaps, same_kind, repeats, clashes};
ghost use Rattle.rl_model.specs.Rules.{name_checks, bit_checks, field_checks, is_bad_width, Passes};
ghost use Rattle.rl_model.specs.Paths.{is_among};
ghost use Rattle.rl_model.specs.Stages.{TakesOwnBits};

use crate::fault::{ModelCause, ModelFault, Spot};
use crate::limits::{LONGEST_NAME, MOST_BITS, MOST_BYTES, MOST_KINDS, MOST_NAMES};
use crate::name::Name;
use crate::parts::{FieldPart, ResetPart};
use crate::paths::Paths;
use std::alloc::{AllocError, Global};

fn is_letter(c: u8) -> bool
    ensures { result ≡ is_letter c }
{
    c >= b'A' && c <= b'Z' || c >= b'a' && c <= b'z' || c == b'_'
}

fn is_name_byte(c: u8) -> bool
    ensures { result ≡ is_name_byte c }
{
    is_letter(c) || c >= b'0' && c <= b'9'
}

/// Whether a text is a letter or `_`, and then letters, digits and `_`, of 1 to 32 bytes: this project's own rule of a
/// name.
pub fn is_name(text: &[u8]) -> bool
    ensures { result ≡ is_name text.now }
{
    match text {
        [first, rest @ ..] => rest.len() < LONGEST_NAME
            && is_letter(*first)
            && are_name_bytes(rest),
        [] => false,
    }
}

fn are_name_bytes(text: &[u8]) -> bool
    ensures { result ≡ list_all is_name_byte text.now }
{
    text.iter().all(|c| is_name_byte(*c))
}

fn path_of(alloc: Global, of: &Option<Name>, name: &Name) -> Result<Vec<u8>, AllocError>
    ensures { IfOk result (λ path. path.items ≡ path_of of.now name.now) }
{
    match of {
        None => Vec::from_slice(alloc, name.text()),
        Some(of) => {
            let mut path = Vec::from_slice(alloc, of.text())?;
            path.push(b'.')?;
            path.extend_from_slice(name.text())?;
            Ok(path)
        }
    }
}

fn dots_in(path: &[u8]) -> usize
    ensures count { result + 1 ≡ names_in path.now }
    ensures small { result ≤ length path.now }
{
    path.iter().filter(|c| **c == b'.').count()
}

/// Whether the parent is the top or one of the first `parents` paths.
fn has_parent(paths: &Paths, parents: usize, of: &Option<Name>) -> bool
    ensures { result ≡ has_parent parents paths.now of.now }
{
    match of {
        None => true,
        Some(of) => paths.is_below(of.text(), parents),
    }
}

/// Tests a row's number, its name and its parent.
fn check_row(
    paths: &Paths,
    spot: Spot,
    limit: u32,
    parents: usize,
    of: &Option<Name>,
    name: &Name,
) -> Result<(), ModelFault>
    ensures exact { Passes result (first_of spot (row_checks spot limit parents paths.now of.now name.now)) (λ _. ⊤) }
    ensures row { OnOk result (spot.row < limit) }
{
    if spot.row >= limit {
        return Err(spot.refuses(ModelCause::TooMany));
    }
    if !is_name(name.text()) {
        return Err(spot.refuses(ModelCause::BadName));
    }
    if !has_parent(paths, parents, of) {
        return Err(spot.refuses(ModelCause::NoSuchParent));
    }
    Ok(())
}

/// Tests a path that is to follow these.
fn check_path(paths: &Paths, path: &[u8], spot: Spot) -> Result<(), ModelFault>
    ensures exact { Passes result (first_of spot (path_checks paths.now path.now)) (λ _. ⊤) }
    ensures new { OnOk result (is_among path.now paths.now ≡ false) }
{
    if dots_in(path) >= MOST_NAMES {
        return Err(spot.refuses(ModelCause::TooDeep));
    }
    if paths.has(path) {
        return Err(spot.refuses(ModelCause::DuplicateName));
    }
    Ok(())
}

/// Adds the path of a row, if the row may have it.
pub(crate) fn add_path(
    alloc: Global,
    paths: &mut Paths,
    spot: Spot,
    limit: u32,
    parents: usize,
    of: &Option<Name>,
    name: &Name,
) -> Result<(), ModelFault>
    ensures exact { Passes result (path_fault spot limit parents paths.old of.now name.now)
        (λ _. paths.new ≡ paths.old ++ path_of of.now name.now ∷ []) }
    ensures row { OnOk result (spot.row < limit) }
{
    check_row(paths, spot, limit, parents, of, name)?;
    let path = path_of(alloc, of, name)?;
    check_path(paths, &path, spot)?;
    paths.add(path)?;
    Ok(())
}

/// Tests the bytes of a register, or of a location of a memory.
pub(crate) fn check_width(bytes: u64, spot: Spot) -> Result<(), ModelFault>
    ensures fits { OnOk result (is_bad_width bytes ≡ false) }
    ensures bad { OnErr result (is_bad_width bytes ≡ true) }
    ensures cause { IfErr result (λ why. why ≡ ModelFault.Bad ModelCause.BadWidth spot) }
{
    if bytes < 1 || bytes > MOST_BYTES {
        return Err(spot.refuses(ModelCause::BadWidth));
    }
    Ok(())
}

fn overlaps(field: &FieldPart, other: &FieldPart) -> bool
    ensures { 1 ≤ field.now.width → result ≡ overlaps field.now other.now }
{
    if other.lsb <= field.lsb {
        field.lsb - other.lsb < other.width
    } else {
        other.lsb - field.lsb < field.width
    }
}

fn is_outside(lsb: u64, width: u64, bits: u64) -> bool
    ensures { result ≡ nat_lt bits (lsb + width) }
{
    width > bits || lsb > bits - width
}

fn has_name(fields: &[FieldPart], name: &Name) -> bool
    ensures { result ≡ list_any (λ g. bytes_eq name.now g.name) fields.now }
{
    fields.iter().any(|field| name.text() == field.name.text())
}

fn have_overlap(fields: &[FieldPart], field: &FieldPart) -> bool
    requires { 1 ≤ field.now.width }
    ensures { result ≡ list_any (overlaps field.now) fields.now }
{
    for other in fields {
        if overlaps(field, other) {
            return true;
        }
    }
    false
}

fn are_named(resets: &[ResetPart]) -> bool
    ensures { result ≡ list_all (λ r. is_name r.kind) resets.now }
{
    resets.iter().all(|reset| is_name(reset.kind.text()))
}

fn has_kind(resets: &[ResetPart], kind: &Name) -> bool
    ensures { result ≡ list_any (λ s. bytes_eq kind.now s.kind) resets.now }
{
    resets.iter().any(|reset| kind.text() == reset.kind.text())
}

/// Whether a kind comes twice among a few.
fn repeats(resets: &[ResetPart]) -> bool
    ensures { result ≡ repeats resets.now }
{
    for (i, reset) in resets.iter().enumerate() {
        if has_kind(&resets[i + 1..], &reset.kind) {
            return true;
        }
    }
    false
}

/// Whether a kind is among these or comes twice. The kinds before it are added to them.
fn is_one_known(alloc: Global, kinds: &mut Paths, resets: &[ResetPart]) -> Result<bool, AllocError>
    ensures { IfOk result (λ b. b ≡ clashes kinds.old resets.now) }
{
    for reset in resets {
        let known = kinds.len();
        if kinds.find_or_add(alloc, reset.kind.text())? < known {
            return Ok(true);
        }
    }
    Ok(false)
}

/// Whether a kind comes twice, in time that grows with their number.
fn repeats_among_many(alloc: Global, resets: &[ResetPart]) -> Result<bool, AllocError>
    ensures { IfOk result (λ b. b ≡ repeats resets.now) }
{
    let mut kinds = Paths::new(alloc);
    is_one_known(alloc, &mut kinds, resets)
}

fn have_repeated_kind(alloc: Global, resets: &[ResetPart]) -> Result<bool, AllocError>
    ensures { IfOk result (λ b. b ≡ repeats resets.now) }
{
    if resets.len() <= MOST_KINDS {
        Ok(repeats(resets))
    } else {
        repeats_among_many(alloc, resets)
    }
}

fn is_too_wide(value: u64, width: u64) -> bool
    requires { width ≤ 64 }
    ensures { result ≡ nat_le (2 ^ width) value }
{
    width < 64 && value >> width != 0
}

fn have_too_wide(resets: &[ResetPart], width: u64) -> bool
    requires { width ≤ 64 }
    ensures { result ≡ list_any (λ r. nat_le (2 ^ width) r.value) resets.now }
{
    for reset in resets {
        if is_too_wide(reset.value, width) {
            return true;
        }
    }
    false
}

/// Tests the name of a field and those of its kinds.
fn check_names(
    alloc: Global,
    earlier: &[FieldPart],
    field: &FieldPart,
    spot: Spot,
) -> Result<(), ModelFault>
    ensures { Passes result (first_of spot (name_checks earlier.now field.now)) (λ _. ⊤) }
{
    if !is_name(field.name.text()) || !are_named(&field.resets) {
        return Err(spot.refuses(ModelCause::BadName));
    }
    if has_name(earlier, &field.name) || have_repeated_kind(alloc, &field.resets)? {
        return Err(spot.refuses(ModelCause::DuplicateName));
    }
    Ok(())
}

/// Tests where the bits of a field lie, and its values in them.
fn check_bits(
    earlier: &[FieldPart],
    field: &FieldPart,
    bytes: u64,
    spot: Spot,
) -> Result<(), ModelFault>
    requires { bytes ≤ 8 }
    ensures exact { Passes result (first_of spot (bit_checks bytes earlier.now field.now)) (λ _. ⊤) }
    ensures fits { OnOk result (field.now.width ≤ 64) }
    ensures own { OnOk result (TakesOwnBits (8 * bytes) earlier.now field.now) }
{
    if field.width < 1 || field.width > MOST_BITS {
        return Err(spot.refuses(ModelCause::BadWidth));
    }
    if is_outside(field.lsb, field.width, 8 * bytes) {
        return Err(spot.refuses(ModelCause::FieldOutside));
    }
    if have_overlap(earlier, field) {
        return Err(spot.refuses(ModelCause::FieldsOverlap));
    }
    if have_too_wide(&field.resets, field.width) {
        return Err(spot.refuses(ModelCause::ResetTooWide));
    }
    Ok(())
}

/// Tests a field of a register, after the earlier ones.
pub(crate) fn check_field(
    alloc: Global,
    earlier: &[FieldPart],
    field: &FieldPart,
    bytes: u64,
    spot: Spot,
) -> Result<(), ModelFault>
    requires { bytes ≤ 8 }
    ensures exact { Passes result (first_of spot (field_checks bytes earlier.now field.now)) (λ _. ⊤) }
    ensures fits { OnOk result (field.now.width ≤ 64) }
    ensures own { OnOk result (TakesOwnBits (8 * bytes) earlier.now field.now) }
{
    check_names(alloc, earlier, field, spot)?;
    check_bits(earlier, field, bytes, spot)
}
