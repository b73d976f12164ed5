// The items of an access by index.
ghost use Rattle.std.specs.Prelude.{map};
ghost use Rattle.rl_access.specs.Model.{IsReady};

use super::chip::{window, with_flaws};
use crate::accesses::fixture::{Task, performed};
use crate::accesses::stand::Stand;
use rl_access::Trace;
use rl_bus::{Adapter, Device};
use rl_indirect::{Bank, Indexed, indexed_write};
use std::alloc::{AllocError, AllocGlobal, Global};
use std::process::Abort;
use std::test::Fail;

// Appends the address and the word of each item.
fn push_items(seen: &mut Vec<(u64, u64)>, trace: &Trace) -> Result<(), AllocError> {
    for k in 0..trace.len() {
        let op = trace.item(k).op;
        seen.push((op.address, op.word))?;
    }
    Ok(())
}

fn items_of(alloc: Global, indexed: &Indexed) -> Result<Vec<(u64, u64)>, AllocError> {
    let mut seen = Vec::new(alloc);
    if let Indexed::At { index, access } = indexed {
        push_items(&mut seen, &index.trace)?;
        push_items(&mut seen, &access.trace)?;
    }
    Ok(seen)
}

/// Writes entry 1: the index in one byte, and then the value in two.
pub(crate) fn items_seen<D: Device>(
    rt: &(impl Abort + AllocGlobal),
    on: &mut Stand<'_, D>,
) -> Result<(), Fail>
    requires ready { IsReady on.old.model.now (map standing on.old.adapters.now.items) (D.state on.old.device.now) }
{
    let window = window(on.model.chip(), "ix", "rw")?;
    let Ok(mut bank) = Bank::build(rt.alloc(), on.model, on.device, window, 4) else {
        return Err("no bank".into());
    };
    let indexed = indexed_write(&mut bank, on.model, on.device, on.adapters, None, 1, 0x1234);
    let seen = items_of(rt.alloc(), &indexed)?;
    assert_eq!(rt;
        seen.as_slice(),
        [(0x0, 0x01), (0x2, 0x34), (0x3, 0x12)].as_slice()
    );
    Ok(())
}

#[test]
fn items_of_an_access_by_index(rt: HostRuntime) -> Result<(), Fail> {
    let text = with_flaws(rt.alloc(), "")?;
    performed(&rt, text.as_str(), &Task::IndexItems)
}
