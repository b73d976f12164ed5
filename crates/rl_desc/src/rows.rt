//! The rows of an array, one after the other.
ghost use Rattle.std.specs.Prelude.{◌≡◌, Option, map};
ghost use Rattle.toml.specs.Data.{Members};
ghost use Rattle.toml.specs.View.{items_view, table_view};
ghost use Rattle.rl_desc.specs.declared.fault.DescFault.{DescFault};
ghost use Rattle.rl_model.specs.declared.fault.Spot.{Spot};
ghost use Rattle.rl_desc.specs.Refusals.{Reads};
ghost use Rattle.rl_desc.specs.Columns.{in_rows};
ghost use Rattle.rl_desc.specs.Shapes.{tables_of};

use crate::fault::{DescFault, Rows};
use rl_model::Spot;
use std::alloc::Global;
use toml::{Table, Value};

/// What a row describes.
pub(crate) trait Described: Sized + Drop {
    ghost fault: { Spot → Members → Option DescFault };

    ghost data_of: { Members → Self };

    fn read(alloc: Global, row: &Table, spot: Spot) -> Result<Self, DescFault>
        ensures { Reads (λ x. x) result (fault spot (table_view row.now)) (data_of (table_view row.now)) };
}

/// What the rows describe, up to the first fault.
pub(crate) fn read_rows<D: Described>(
    alloc: Global,
    rows: &[Value],
    place: Rows,
) -> Result<Vec<D>, DescFault>
    ensures { Reads (λ v. v.items) result (in_rows place D.fault (tables_of (items_view rows.now)))
        (map D.data_of (tables_of (items_view rows.now))) }
{
    let mut parts = Vec::new(alloc);
    let mut count = 0u32;
    for row in rows {
        let Some(table) = row.as_table() else {
            continue;
        };
        parts.push(D::read(alloc, table, place.spot(count))?)?;
        count = count.checked_add(1).ok_or(DescFault::Memory)?;
    }
    Ok(parts)
}
