// Why a bank is not built.
ghost use Rattle.std.specs.Prelude.{◌<◌, length};
ghost use Rattle.rl_access.specs.Model.{IsDeviceOf};

use super::chip::window;
use crate::accesses::fixture::{Task, performed};
use rl_access::Model;
use rl_bus::Device;
use rl_indirect::WindowFault::{BadData, BadIndex, BadSize, IndexOutside, SameRegister};
use rl_indirect::{Bank, Window, WindowFault};
use std::alloc::{AllocGlobal, Global};
use std::process::Abort;
use std::test::Fail;

// Index and data registers, each of which is wrong in one way. The device begins with another index than the model
// believes in `there`, `believed` and `both`.
fn chip() -> &'static str {
    "
reg = [
    {name = 'ix', bytes = 1, field = [{name = 'k', lsb = 0, width = 2, policy = 'RW'}]},
    {name = 'wide', bytes = 4, field = [{name = 'k', lsb = 0, width = 32, policy = 'RW'}]},
    {name = 'none', bytes = 1},
    {name = 'two', bytes = 1, field = [{name = 'k', lsb = 0, width = 2, policy = 'RW'}, \
        {name = 'l', lsb = 2, width = 1, policy = 'RW'}]},
    {name = 'shifted', bytes = 1, field = [{name = 'k', lsb = 1, width = 2, policy = 'RW'}]},
    {name = 'clears', bytes = 1, field = [{name = 'k', lsb = 0, width = 2, policy = 'WRC'}]},
    {name = 'moves', bytes = 1, field = [{name = 'k', lsb = 0, width = 2, policy = 'RW', volatile = true}]},
    {name = 'there', bytes = 1, field = [{name = 'k', lsb = 0, width = 4, policy = 'RW', reset = 1}]},
    {name = 'believed', bytes = 1, field = [{name = 'k', lsb = 0, width = 4, policy = 'RW', reset = 5}]},
    {name = 'both', bytes = 1, field = [{name = 'k', lsb = 0, width = 4, policy = 'RW', reset = 5}]},
    {name = 'dt', bytes = 2, field = [{name = 'v', lsb = 0, width = 16, policy = 'RW'}]},
    {name = 'once', bytes = 2, field = [{name = 'v', lsb = 0, width = 8, policy = 'RW'}, \
        {name = 'w', lsb = 8, width = 8, policy = 'W1'}]},
    {name = 'unread', bytes = 2, field = [{name = 'v', lsb = 0, width = 16, policy = 'WO1'}]},
    {name = 'lives', bytes = 2, field = [{name = 'v', lsb = 0, width = 16, policy = 'RO', volatile = true}]},
]
flaw = [
    {kind = 'reset', field = 'there.k', on = 'HARD', value = 9},
    {kind = 'reset', field = 'believed.k', on = 'HARD', value = 3},
    {kind = 'reset', field = 'both.k', on = 'HARD', value = 9},
]
"
}

// Index register, data register and size, and the first condition that fails, or none where a bank is built.
type Row = (&'static str, &'static str, u32, Option<WindowFault>);

static ROWS: [Row; 21] = [
    ("ix", "dt", 4, None),
    ("wide", "dt", 65_536, None),
    ("two", "two", 0, Some(SameRegister)),
    ("none", "once", 0, Some(BadIndex)),
    ("two", "dt", 4, Some(BadIndex)),
    ("shifted", "dt", 4, Some(BadIndex)),
    ("clears", "dt", 4, Some(BadIndex)),
    ("moves", "dt", 4, Some(BadIndex)),
    ("ix", "once", 0, Some(BadData)),
    ("ix", "unread", 4, Some(BadData)),
    ("ix", "lives", 4, Some(BadData)),
    ("ix", "none", 4, None),
    ("there", "dt", 0, Some(BadSize)),
    ("ix", "dt", 5, Some(BadSize)),
    ("wide", "dt", 65_537, Some(BadSize)),
    ("there", "dt", 17, Some(BadSize)),
    ("there", "dt", 9, Some(IndexOutside { value: 9 })),
    ("there", "dt", 10, None),
    ("believed", "dt", 5, Some(IndexOutside { value: 5 })),
    ("believed", "dt", 6, None),
    ("both", "dt", 5, Some(IndexOutside { value: 9 })),
];

fn rows() -> &'static [Row] {
    &ROWS
}

// The fault of a window, or none where a bank is built.
fn fault<D: Device>(
    alloc: Global,
    model: &Model,
    device: &D,
    window: Window,
    size: u32,
) -> Option<WindowFault>
    requires device { IsDeviceOf model.now (D.state device.now) }
    requires index_reg { window.index_reg < length model.now.chip.regs }
    requires data_reg { window.data_reg < length model.now.chip.regs }
{
    match Bank::build(alloc, model, device, window, size) {
        Ok(_bank) => None,
        Err(fault) => Some(fault),
    }
}

/// Builds banks, each of which is built or has the fault that is beside it.
pub(crate) fn banks_built<D: Device>(
    rt: &(impl Abort + AllocGlobal),
    model: &Model,
    device: &D,
) -> Result<(), Fail>
    requires { IsDeviceOf model.now (D.state device.now) }
{
    for (index, data, size, want) in rows() {
        let window = window(model.chip(), index, data)?;
        let got = fault(rt.alloc(), model, device, window, *size);
        assert_eq!(rt; got, *want, "{index} {data} {size}");
    }
    Ok(())
}

#[test]
fn each_cause_in_order(rt: HostRuntime) -> Result<(), Fail> {
    performed(&rt, chip(), &Task::Banks)
}
