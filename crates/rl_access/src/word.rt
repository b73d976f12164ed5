//! Single words of accesses, for masters whose accesses are open at once.
ghost use Rattle.std.specs.Prelude.{◌≡◌, ◌<◌, ◌^◌, map, length, slice_get, Some, unwrap_or};
ghost use Rattle.rl_bus.specs.Wire.{Fits};
ghost use Rattle.rl_map.specs.Layout.{place_at, words_of};
ghost use Rattle.rl_split.specs.Access.{kind_of, bus_bytes_of};
ghost use Rattle.rl_access.specs.Call.{scene_of};
ghost use Rattle.rl_access.specs.Event.{ItemFits};
ghost use Rattle.rl_access.specs.Gathering.{IsRegisterPlace};
ghost use Rattle.rl_access.specs.Model.{IsReady, IsSameChip};
ghost use Rattle.rl_access.specs.Observed.{word_ops};
ghost use Rattle.rl_access.specs.Word.{IsWordSent};

use crate::model::Model;
use crate::send::send_one;
use crate::trace::TraceItem;
use rl_bus::{Adapter, Adapters, BusOp, Device};
use rl_split::whole_op;

/// Sends one word of a whole write of a value, or of a whole read, at a place of a register. `k` is the
/// word's number, counted from 0. Where the root is explicit the predictor sees the item.
pub fn send_word<D: Device>(
    model: &mut Model,
    device: &mut D,
    adapters: &mut Adapters,
    place: u32,
    k: u32,
    value: Option<u64>,
) -> TraceItem
    requires ready { IsReady model.old (map standing adapters.old.items) (D.state device.old) }
    requires place { IsRegisterPlace model.old.layout place }
    requires word { k < length (words_of model.old.layout place 0) }
    requires value { unwrap_or value 0 < 256 ^ (place_at model.old.layout place).bytes }
    ensures ready { IsReady model.new (map standing adapters.new.items) (D.state device.new) }
    ensures parts { IsSameChip model.old model.new }
    ensures fits { ItemFits model.new.layout result }
    ensures sent { IsWordSent (scene_of standing D.account D.state model.old adapters.old.items device.old)
        (scene_of standing D.account D.state model.new adapters.new.items device.new) place k value result }
{
    let op = word_of(model, place, k, value);
    let port = model.layout().port_of(place);
    let which = model.layout().adapter(port);
    let item = send_one(device, adapters, which, port, &op);
    model.observe(place, &item);
    item
}

/// The operation of a word of a whole access.
fn word_of(model: &Model, place: u32, k: u32, value: Option<u64>) -> BusOp
    requires place { IsRegisterPlace model.now.layout place }
    requires word { k < length (words_of model.now.layout place 0) }
    ensures word { slice_get (word_ops model.now.layout place value) k ≡ Some result }
    ensures fits { Fits (kind_of model.now.layout place) result }
    ensures bytes { result.bytes ≡ bus_bytes_of model.now.layout place }
{
    whole_op(
        model.layout(),
        place,
        k,
        value.unwrap_or(0),
        value.is_some(),
    )
}
