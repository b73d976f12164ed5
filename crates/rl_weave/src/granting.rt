//! Whether a model grants an access: its place, or the first cause against it.
ghost use Rattle.std.specs.Prelude.{◌≡◌, ◌<◌, ◌^◌, length, nat_lt, Ok, IfOk};
ghost use Rattle.rl_model.specs.declared.rows.Item.TheVariants as item;
ghost use Rattle.rl_access.specs.Rules.{grant, item_size};
ghost use Rattle.rl_weave.specs.Access.{op_of, IsNumbered};
ghost use Rattle.rl_weave.specs.Weave.{place_granted, value_fits};

use crate::access::{Access, WeaveFault};
use rl_access::Model;
use rl_map::has_right;
use rl_model::Item;
use rl_policy::mask;

/// The place of an access, or the first cause of its refusal.
pub(crate) fn granted(model: &Model, access: &Access) -> Result<u32, WeaveFault>
    requires { IsNumbered model.now access.now }
    ensures grant { result ≡ place_granted (grant model.now (op_of access.now)) }
    ensures place { IfOk result (λ place. grant model.now (op_of access.now) ≡ Ok place) }
{
    let layout = model.layout();
    let place = match layout.place_of(Item::Reg(access.reg), access.map) {
        Some(place) => place,
        None => return Err(WeaveFault::NotPlaced),
    };
    if !layout.explicit(layout.port_of(place)) {
        return Err(WeaveFault::NotObserved);
    }
    if !has_right(layout.rights(place), access.value.is_some()) {
        return Err(WeaveFault::NoRight);
    }
    if !is_fitting(model, access) {
        return Err(WeaveFault::TooWide);
    }
    Ok(place)
}

/// Whether the register's bytes hold the value of a write.
fn is_fitting(model: &Model, access: &Access) -> bool
    requires { access.now.reg < length model.now.chip.regs }
    ensures { result ≡ value_fits model.now access.now.reg access.now.value }
{
    match access.value {
        Some(value) => value <= mask(8 * model.chip().bytes(Item::Reg(access.reg))),
        None => true,
    }
}
