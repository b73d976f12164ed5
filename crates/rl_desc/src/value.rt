//! What a key may hold.
ghost use Rattle.std.specs.Prelude.{◌≡◌, Bool, ℕ, List, map, if◌then◌else◌, Err};
ghost use Rattle.toml.specs.Data.{Data, Members};
ghost use Rattle.toml.specs.View.{view, items_view, table_view};
ghost use Rattle.rl_model.specs.declared.parts.ResetPart.{ResetPart};
ghost use Rattle.rl_model.specs.declared.sets.Skip.{Skip};
ghost use Rattle.rl_desc.specs.declared.key.Key.{Key};
ghost use Rattle.rl_desc.specs.declared.fault.DescCause.TheVariants.{WrongType, BadValue};
ghost use Rattle.rl_desc.specs.Prelude.{ReadsAs, Shape, text, truth, number, word, tables, exclusions, resets, skip};
ghost use Rattle.rl_desc.specs.Prelude.{excluded, are_tables, are_texts, may_be_numbers, kinds, hard_reset, tables_of};

use crate::fault::{DescCause, DescFault};
use crate::key::Key;
use crate::words::Word;
use bitflags::Flags;
use rl_model::{Name, ResetPart, Skip, Spot};
use rl_policy::{NumberText, read_number};
use std::alloc::Global;
use toml::{Table, Value};

/// Where a value is.
#[derive(Clone, Copy)]
pub(crate) struct At {
    pub(crate) alloc: Global,
    pub(crate) key: Key,
    pub(crate) spot: Option<Spot>,
}

impl At {
    fn wrong_type(self) -> DescFault
        ensures { result ≡ DescFault.Bad (WrongType self.key) self.spot }
    {
        DescFault::Bad {
            cause: DescCause::WrongType { key: self.key },
            spot: self.spot,
        }
    }

    fn bad_value(self) -> DescFault
        ensures { result ≡ DescFault.Bad (BadValue self.key) self.spot }
    {
        DescFault::Bad {
            cause: DescCause::BadValue { key: self.key },
            spot: self.spot,
        }
    }
}

/// A type that a key may ask for.
pub(crate) trait Held<'a>: Sized {
    ghost Seen: { Type 0 };

    ghost seen: { Self → Seen };

    ghost shape: { Shape Seen };

    fn of(value: &'a Value, at: At) -> Result<Self, DescFault>
        ensures { ReadsAs seen result at.spot (shape at.key (view value.now)) };
}

impl<'a> Held<'a> for Name {
    ghost Seen = { List ℕ };

    ghost seen = { λ n. n };

    ghost shape = { text };

    fn of(value: &'a Value, at: At) -> Result<Name, DescFault> {
        match value {
            Value::String(text) => {
                Ok(Name::of(Vec::from_slice(at.alloc, text.as_str().as_bytes())?))
            }
            _ => Err(at.wrong_type()),
        }
    }
}

impl<'a> Held<'a> for bool {
    ghost Seen = { Bool };

    ghost seen = { λ b. b };

    ghost shape = { truth };

    fn of(value: &'a Value, at: At) -> Result<bool, DescFault> {
        value.as_bool().ok_or(at.wrong_type())
    }
}

impl<'a> Held<'a> for u64 {
    ghost Seen = { ℕ };

    ghost seen = { λ n. n };

    ghost shape = { number };

    #[tactic(auto, unfolding(crate::specs::Shapes::number))]
    fn of(value: &'a Value, at: At) -> Result<u64, DescFault> {
        match value {
            Value::Integer(n) => u64::try_from(*n).map_err(|_| at.bad_value()),
            Value::String(text) => match read_number(text.as_str().as_bytes()) {
                NumberText::Value(n) => Ok(n),
                NumberText::Bad | NumberText::TooLarge => Err(at.bad_value()),
            },
            _ => Err(at.wrong_type()),
        }
    }
}

/// A word of a list.
pub(crate) struct Listed<W>(pub(crate) W);

impl<'a, W: Word> Held<'a> for Listed<W> {
    ghost Seen = { W };

    ghost seen = { λ w. w.0 };

    ghost shape = { word W.named };

    fn of(value: &'a Value, at: At) -> Result<Listed<W>, DescFault> {
        match value {
            Value::String(name) => match W::of_name(name.as_str()) {
                Some(word) => Ok(Listed(word)),
                None => Err(at.bad_value()),
            },
            _ => Err(at.wrong_type()),
        }
    }
}

impl<'a> Held<'a> for &'a [Value] {
    ghost Seen = { List Members };

    ghost seen = { λ rows. tables_of (items_view rows.now) };

    ghost shape = { tables };

    fn of(value: &'a Value, at: At) -> Result<&'a [Value], DescFault> {
        match value {
            Value::Array(items) if are_tables(items.as_slice()) => Ok(items.as_slice()),
            _ => Err(at.wrong_type()),
        }
    }
}

fn are_tables(items: &[Value]) -> bool
    ensures { result ≡ are_tables (items_view items.now) }
{
    items.iter().all(|item| item.is_table())
}

impl<'a> Held<'a> for Skip {
    ghost Seen = { Skip };

    ghost seen = { λ s. s };

    ghost shape = { exclusions };

    fn of(value: &'a Value, at: At) -> Result<Skip, DescFault> {
        match value {
            Value::Array(items) if are_texts(items.as_slice()) => excluded(items.as_slice(), at),
            _ => Err(at.wrong_type()),
        }
    }
}

fn are_texts(items: &[Value]) -> bool
    ensures { result ≡ are_texts (items_view items.now) }
{
    items.iter().all(|item| item.is_str())
}

fn excluded(items: &[Value], at: At) -> Result<Skip, DescFault>
    ensures { ReadsAs (λ s. s) result at.spot (excluded at.key (skip 0) (items_view items.now)) }
{
    let mut all = Skip::empty();
    for item in items {
        let Listed(exclusion) = Listed::<Skip>::of(item, at)?;
        all = all.union(exclusion);
    }
    Ok(all)
}

impl<'a> Held<'a> for Vec<ResetPart> {
    ghost Seen = { List ResetPart };

    ghost seen = { λ resets. resets.items };

    ghost shape = { resets };

    fn of(value: &'a Value, at: At) -> Result<Vec<ResetPart>, DescFault> {
        match value.as_table() {
            None => hard(value, at),
            Some(table) => {
                if may_be_numbers(table) {
                    kinds(table, at)
                } else {
                    Err(at.wrong_type())
                }
            }
        }
    }
}

fn hard(value: &Value, at: At) -> Result<Vec<ResetPart>, DescFault>
    ensures { ReadsAs (λ resets. resets.items) result at.spot (hard_reset at.key (view value.now)) }
{
    let value = u64::of(value, at)?;
    let kind = Name::of(Vec::from_slice(at.alloc, b"HARD")?);
    let mut resets = Vec::new(at.alloc);
    resets.push(ResetPart { kind, value })?;
    Ok(resets)
}

fn may_be_numbers(table: &Table) -> bool
    ensures { result ≡ may_be_numbers (table_view table.now) }
{
    for (_, value) in table.iter() {
        if !value.is_integer() && !value.is_str() {
            return false;
        }
    }
    true
}

fn kinds(table: &Table, at: At) -> Result<Vec<ResetPart>, DescFault>
    ensures { ReadsAs (λ resets. resets.items) result at.spot (kinds at.key (table_view table.now)) }
{
    let mut resets = Vec::new(at.alloc);
    for (kind, value) in table.iter() {
        let value = u64::of(value, at)?;
        let kind = Name::of(Vec::from_slice(at.alloc, kind.as_str().as_bytes())?);
        resets.push(ResetPart { kind, value })?;
    }
    Ok(resets)
}
