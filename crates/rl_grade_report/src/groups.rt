// Flaws of a place in words, those of one sort together.
ghost use Rattle.std.specs.Prelude.{◌≡◌, ◌++◌, ◌<◌, length, filter, All, OnOk, IfOk};
ghost use Rattle.std.specs.List.{list_any};
ghost use Rattle.rl_flaw.specs.Flaws.{IsFlawOf};
ghost use Rattle.rl_grade_report.specs.Groups.{detail_of, is_same_sort, is_first, sort_text, group_text, groups_text};

use crate::kind::Kind;
use crate::members::push_members;
use crate::pieces::lead;
use rl_bench::Flaw;
use rl_map::Layout;
use rl_model::Chip;
use rl_session::push_pieces;
use std::alloc::{AllocError, Global};

// What tells the sorts of one kind apart: the value of a bit that is stuck, the kind of reset, the port of an address.
fn detail_of(flaw: Flaw) -> u32
    ensures { result ≡ detail_of flaw }
{
    match flaw {
        Flaw::Stuck { value, .. } => u32::from(value),
        Flaw::OtherReset { kind, .. } => kind,
        Flaw::ErrorRange { port, .. } => port,
        Flaw::OtherPolicy { .. } | Flaw::Deaf { .. } | Flaw::ErrorNth { .. } => 0,
    }
}

// Whether two flaws of a place are told together.
fn is_same_sort(one: Flaw, other: Flaw) -> bool
    ensures { result ≡ is_same_sort one other }
{
    Kind::of(one).has(other) && detail_of(one) == detail_of(other)
}

// Whether one of these is of a flaw's sort.
fn has_sort(flaws: &[Flaw], one: Flaw) -> bool
    ensures { result ≡ list_any (is_same_sort one) flaws.now }
{
    flaws.iter().any(|other| is_same_sort(one, *other))
}

// Whether none of the flaws before a place is of the sort of the one there.
fn is_first(flaws: &[Flaw], place: usize) -> bool
    requires { place < length flaws.now }
    ensures { result ≡ is_first flaws.now place }
{
    !has_sort(&flaws[..place], flaws[place])
}

// Those of a flaw's sort.
fn same_sort(alloc: Global, flaws: &[Flaw], one: Flaw) -> Result<Vec<Flaw>, AllocError>
    ensures { IfOk result (λ same. same.items ≡ filter (is_same_sort one) flaws.now) }
{
    flaws
        .iter()
        .copied()
        .filter(|other| is_same_sort(one, *other))
        .collect(alloc)
}

// Appends what a sort of flaws is called.
fn push_sort(text: &mut Vec<u8>, chip: &Chip, layout: &Layout, flaw: Flaw) -> Result<(), AllocError>
    requires { IsFlawOf chip.now layout.now flaw }
    ensures { OnOk result (text.new.items ≡ text.old.items ++ sort_text chip.now layout.now flaw) }
{
    match flaw {
        Flaw::Stuck { value: false, .. } => text.extend_from_slice(b"stuck at 0 bit"),
        Flaw::Stuck { value: true, .. } => text.extend_from_slice(b"stuck at 1 bit"),
        Flaw::OtherReset { kind, .. } => {
            let pieces: [&[u8]; 3] = [b"reset ", chip.kind_name(kind), b" bit"];
            push_pieces(text, &pieces)
        }
        Flaw::ErrorRange { port, .. } => {
            let root = layout.map_name(layout.port_map(port));
            let pieces: [&[u8]; 2] = [b"address ", root];
            push_pieces(text, &pieces)
        }
        Flaw::OtherPolicy { .. } => text.extend_from_slice(b"policy"),
        Flaw::Deaf { .. } => text.extend_from_slice(b"deaf"),
        Flaw::ErrorNth { .. } => text.extend_from_slice(b"item"),
    }
}

// Appends the flaws of the sort of one of them.
fn push_group(
    alloc: Global,
    text: &mut Vec<u8>,
    chip: &Chip,
    layout: &Layout,
    flaws: &[Flaw],
    one: Flaw,
) -> Result<(), AllocError>
    requires each { All (IsFlawOf chip.now layout.now) flaws.now }
    requires one { IsFlawOf chip.now layout.now one }
    ensures { OnOk result (text.new.items ≡ text.old.items ++ group_text chip.now layout.now flaws.now one) }
{
    let same = same_sort(alloc, flaws, one)?;
    push_sort(text, chip, layout, one)?;
    push_members(alloc, text, chip, layout, one, &same)
}

// Appends these flaws, each with those of its sort, behind what leads to the first.
pub(crate) fn push_groups(
    alloc: Global,
    text: &mut Vec<u8>,
    first: &[u8],
    chip: &Chip,
    layout: &Layout,
    flaws: &[Flaw],
) -> Result<(), AllocError>
    requires { All (IsFlawOf chip.now layout.now) flaws.now }
    ensures { OnOk result (text.new.items ≡ text.old.items ++ groups_text first.now chip.now layout.now flaws.now) }
{
    let mut told = false;
    for place in 0..flaws.len() {
        if is_first(flaws, place) {
            text.extend_from_slice(lead(told, first))?;
            push_group(alloc, text, chip, layout, flaws, flaws[place])?;
            told = true;
        }
    }
    Ok(())
}
