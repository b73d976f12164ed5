//! A row of a description, and what its keys hold.
ghost use Rattle.std.specs.Prelude.{◌≡◌, None, Some, option_map};
ghost use Rattle.toml.specs.View.{view, items_view, table_view};
ghost use Rattle.rl_desc.specs.Shapes.{tables_of, word, tables};
ghost use Rattle.rl_desc.specs.Refusals.{Reads, at_spot};
ghost use Rattle.rl_desc.specs.Columns.{value_at, is_one_of, only, optional, required, held, held_or, rows_at};

use crate::fault::{DescCause, DescFault};
use crate::key::Key;
use crate::value::{At, Held, Listed};
use crate::words::Word;
use rl_model::Spot;
use std::alloc::Global;
use toml::{Table, Value};

/// A table with the place that its faults name.
#[derive(Clone, Copy)]
pub(crate) struct Row<'a> {
    pub(crate) alloc: Global,
    pub(crate) table: &'a Table,
    pub(crate) spot: Option<Spot>,
}

impl<'a> Row<'a> {
    /// Refuses a row that has another key.
    pub(crate) fn only(&self, keys: &[Key]) -> Result<(), DescFault>
        ensures { Reads (λ u. u) result (at_spot self.now.spot (only keys.now (table_view self.now.table.now))) tt }
    {
        for (name, _) in self.table.iter() {
            if !is_one_of(keys, name.as_str()) {
                return Err(self.fault(DescCause::UnknownKey));
            }
        }
        Ok(())
    }

    /// What a key holds, if the row has it.
    pub(crate) fn optional<V: Held<'a>>(&self, key: Key) -> Result<Option<V>, DescFault>
        ensures { Reads (option_map V.seen) result
            (at_spot self.now.spot (optional V.shape key (table_view self.now.table.now)))
            (held V.shape key (table_view self.now.table.now)) }
    {
        match self.get(key) {
            None => Ok(None),
            Some(value) => match V::of(value, self.at(key)) {
                Ok(found) => Ok(Some(found)),
                Err(fault) => Err(fault),
            },
        }
    }

    /// What a key holds, which the row must have.
    pub(crate) fn required<V: Held<'a>>(&self, key: Key) -> Result<V, DescFault>
        ensures { Reads (λ v. Some (V.seen v)) result
            (at_spot self.now.spot (required V.shape key (table_view self.now.table.now)))
            (held V.shape key (table_view self.now.table.now)) }
    {
        match self.get(key) {
            None => Err(self.fault(DescCause::MissingKey { key })),
            Some(value) => match V::of(value, self.at(key)) {
                Ok(found) => Ok(found),
                Err(fault) => Err(fault),
            },
        }
    }

    /// What a key holds, or another value if the row doesn't have it.
    pub(crate) fn held_or<V: Held<'a> + Drop>(&self, key: Key, other: V) -> Result<V, DescFault>
        ensures { Reads V.seen result
            (at_spot self.now.spot (optional V.shape key (table_view self.now.table.now)))
            (held_or (V.seen other) V.shape key (table_view self.now.table.now)) }
    {
        match self.optional(key)? {
            Some(found) => Ok(found),
            None => Ok(other),
        }
    }

    /// The word under a key, or another one if the row doesn't have it.
    pub(crate) fn word_or<W: Word>(&self, key: Key, other: W) -> Result<W, DescFault>
        ensures { Reads (λ w. w) result
            (at_spot self.now.spot (optional (word W.named) key (table_view self.now.table.now)))
            (held_or other (word W.named) key (table_view self.now.table.now)) }
    {
        match self.optional::<Listed<W>>(key)? {
            Some(Listed(word)) => Ok(word),
            None => Ok(other),
        }
    }

    /// The word under a key, which the row must have.
    pub(crate) fn required_word<W: Word>(&self, key: Key) -> Result<W, DescFault>
        ensures { Reads (λ w. Some w) result
            (at_spot self.now.spot (required (word W.named) key (table_view self.now.table.now)))
            (held (word W.named) key (table_view self.now.table.now)) }
    {
        let Listed(word) = self.required::<Listed<W>>(key)?;
        Ok(word)
    }

    /// The rows of an array, which the row may leave out.
    pub(crate) fn rows(&self, key: Key) -> Result<&'a [Value], DescFault>
        ensures { Reads (λ rows. tables_of (items_view rows.now)) result
            (at_spot self.now.spot (optional tables key (table_view self.now.table.now)))
            (rows_at key (table_view self.now.table.now)) }
    {
        match self.optional::<&[Value]>(key)? {
            Some(rows) => Ok(rows),
            None => Ok(&[]),
        }
    }

    fn at(&self, key: Key) -> At
        ensures key { result.key ≡ key }
        ensures spot { result.spot ≡ self.now.spot }
    {
        At {
            alloc: self.alloc,
            key,
            spot: self.spot,
        }
    }

    fn get(&self, key: Key) -> Option<&'a Value>
        ensures { option_map (λ v. view v.now) result ≡ value_at key (table_view self.now.table.now) }
    {
        self.table.get(key.name())
    }

    fn fault(&self, cause: DescCause) -> DescFault
        ensures { result ≡ DescFault.Bad cause self.now.spot }
    {
        DescFault::Bad {
            cause,
            spot: self.spot,
        }
    }
}

fn is_one_of(keys: &[Key], name: &str) -> bool
    ensures { result ≡ is_one_of keys.now name.now }
{
    for key in keys {
        if name == key.name() {
            return true;
        }
    }
    false
}
