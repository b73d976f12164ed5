// Whether two flaws are one.
ghost use Rattle.std.specs.Prelude.{◌≡◌};
ghost use Rattle.rl_map.specs.Layout.{same_item};
ghost use Rattle.rl_grade.specs.Same.{is_same_flaw};

use crate::bits::is_same;
use crate::flaws;
use rl_bench::Flaw;
use rl_model::Item;

// Whether two items are one.
fn is_same_item(a: Item, b: Item) -> bool
    ensures { result ≡ same_item a b }
{
    match (a, b) {
        (Item::Reg(a), Item::Reg(b)) => a == b,
        (Item::Mem(a), Item::Mem(b)) => a == b,
        _ => false,
    }
}

/// Whether two flaws are one.
pub(crate) fn is_same_flaw(a: Flaw, b: Flaw) -> bool
    ensures { result ≡ is_same_flaw a b }
{
    match a {
        Flaw::Stuck { field, bit, value } => match b {
            Flaw::Stuck {
                field: f,
                bit: i,
                value: v,
            } => field == f && (bit == i && is_same(value, v)),
            _ => false,
        },
        Flaw::OtherReset { field, kind, value } => match b {
            Flaw::OtherReset {
                field: f,
                kind: k,
                value: v,
            } => field == f && (kind == k && value == v),
            _ => false,
        },
        Flaw::OtherPolicy { field, policy } => match b {
            Flaw::OtherPolicy {
                field: f,
                policy: p,
            } => field == f && flaws::is_same(policy, p),
            _ => false,
        },
        Flaw::ErrorRange { port, from, to } => match b {
            Flaw::ErrorRange {
                port: p,
                from: f,
                to: t,
            } => port == p && (from == f && to == t),
            _ => false,
        },
        Flaw::ErrorNth { nth } => match b {
            Flaw::ErrorNth { nth: n } => nth == n,
            _ => false,
        },
        Flaw::Deaf { item } => match b {
            Flaw::Deaf { item: i } => is_same_item(item, i),
            _ => false,
        },
    }
}
