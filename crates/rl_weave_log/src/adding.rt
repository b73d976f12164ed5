//! A line of a group: the access that it adds.
ghost use Rattle.std.specs.Prelude.{◌≡◌, Ok, Err, IfSome, IfOk, IfErr, OnOk, OnErr};
ghost use Rattle.rl_weave.specs.Access.{op_of, IsNumbered};
ghost use Rattle.rl_weave_log.specs.Prelude.{IsGathering, access_in, access_said, adding_line, is_named, line_said};

use crate::refusal::WovenRefusal;
use rl_access::{Model, Op};
use rl_log::LineRefusal;
use rl_play::{block_asked, map_asked, mem_at, op_of};
use rl_script::{Item, LineRef};
use rl_weave::{Access, Weave};

/// The access of another master's operation.
fn access_of(op: &Op) -> Option<Access>
    ensures access { result ≡ access_in op.now }
    ensures same { IfSome result (λ access. op_of access ≡ op.now) }
{
    match op {
        Op::OtherWrite { reg, map, value } => Some(Access {
            reg: *reg,
            map: *map,
            value: Some(*value),
        }),
        Op::OtherRead { reg, map } => Some(Access {
            reg: *reg,
            map: *map,
            value: None,
        }),
        _ => None,
    }
}

/// Whether the names of a line are there, which is no single operation.
fn is_named(model: &Model, line: &LineRef<'_>) -> bool
    ensures { result ≡ is_named model.now (line_said line.now) }
{
    match line {
        LineRef::Blank => true,
        LineRef::BurstWrite { mem, map, .. } => {
            mem_at(model, mem).is_some() && map_asked(model, map).is_some()
        }
        LineRef::OnItem(item) => match item.item {
            Item::BurstRead => {
                mem_at(model, &item.path).is_some() && map_asked(model, &item.map).is_some()
            }
            _ => op_of(model, line).is_some(),
        },
        LineRef::Reset { .. } => op_of(model, line).is_some(),
        LineRef::Seq { block, .. } => block_asked(model, block).is_some(),
    }
}

/// The access of a line that isn't blank.
fn access_said(model: &Model, line: &LineRef<'_>) -> Result<Access, WovenRefusal>
    ensures said { result ≡ access_said model.now (line_said line.now) }
    ensures numbers { IfOk result (IsNumbered model.now) }
{
    if !is_named(model, line) {
        return Err(WovenRefusal::Line(LineRefusal::NoSuchName));
    }
    let Some(op) = op_of(model, line) else {
        return Err(WovenRefusal::NotWoven);
    };
    match access_of(&op) {
        Some(access) => Ok(access),
        None => Err(WovenRefusal::NotWoven),
    }
}

/// Adds the access of a line that isn't blank to its group.
pub(crate) fn add_line(
    weave: &mut Weave,
    model: &Model,
    line: &LineRef<'_>,
) -> Result<(), WovenRefusal>
    requires group { IsGathering model.now weave.old }
    ensures added { OnOk result (adding_line weave.old model.now (line_said line.now) ≡ Ok weave.new) }
    ensures refused { IfErr result (λ why. adding_line weave.old model.now (line_said line.now) ≡ Err why) }
    ensures same { OnErr result (weave.new ≡ weave.old) }
    ensures group { IsGathering model.now weave.new }
{
    let access = access_said(model, line)?;
    match weave.add(model, access) {
        Ok(_) => Ok(()),
        Err(fault) => Err(WovenRefusal::Access(fault)),
    }
}
