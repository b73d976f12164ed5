// A chip with index and data registers.
ghost use Rattle.std.specs.Prelude.{◌<◌, IfOk, length};

use rl_indirect::Window;
use rl_model::Chip;
use std::alloc::{AllocError, Global};
use std::test::Fail;

// An index register of four bits that may be written, one that may not, and three data registers: each of a policy.
fn chip() -> &'static str {
    "
reg = [
    {name = 'ix', bytes = 1, field = [{name = 'k', lsb = 0, width = 4, policy = 'RW'}]},
    {name = 'rw', bytes = 2, field = [{name = 'v', lsb = 0, width = 16, policy = 'RW'}]},
    {name = 'w1c', bytes = 2, field = [{name = 'v', lsb = 0, width = 16, policy = 'W1C', reset = 0xffff}]},
    {name = 'rc', bytes = 2, field = [{name = 'v', lsb = 0, width = 16, policy = 'RC', reset = 0xffff}]},
    {name = 'locked', bytes = 1, field = [{name = 'k', lsb = 0, width = 4, policy = 'RW'}]},
]
map = [{name = 'bus', bytes = 1}]
place = [
    {map = 'bus', item = 'ix'},
    {map = 'bus', item = 'rw', offset = 2},
    {map = 'bus', item = 'w1c', offset = 4},
    {map = 'bus', item = 'rc', offset = 6},
    {map = 'bus', item = 'locked', offset = 8, rights = 'ro'},
]
"
}

/// The chip with these flaws.
pub(crate) fn with_flaws(alloc: Global, flaws: &str) -> Result<String, AllocError> {
    let mut text = String::from_str(alloc, chip())?;
    text.push_str(flaws)?;
    Ok(text)
}

/// Two registers by their names.
pub(crate) fn window(chip: &Chip, index: &str, data: &str) -> Result<Window, Fail>
    ensures index_reg { IfOk result (λ window. window.index_reg < length chip.now.regs) }
    ensures data_reg { IfOk result (λ window. window.data_reg < length chip.now.regs) }
{
    let index_reg = chip.reg_by_path(index.as_bytes());
    let data_reg = chip.reg_by_path(data.as_bytes());
    match (index_reg, data_reg) {
        (Some(index_reg), Some(data_reg)) => Ok(Window {
            index_reg,
            data_reg,
        }),
        _ => Err("no such register".into()),
    }
}
