//! The masks of the registers.
ghost use Rattle.std.specs.Prelude.{IfOk};
ghost use Rattle.rl_policy.specs.Masks.{AreEffectsOf};
ghost use Rattle.rl_model.specs.Fields.{policy_at};
ghost use Rattle.rl_model.specs.Masks.{AllHaveSeats, HaveFields, AreEffects};

use crate::rows::{FieldRow, RegRow};
use rl_policy::Effects;
use rl_policy::word::window;
use std::alloc::{AllocError, Global};

/// The masks of a register with these fields.
fn effects_of(fields: &[FieldRow]) -> Effects
    requires { AllHaveSeats fields.now }
    ensures { AreEffectsOf (policy_at fields.now) result }
{
    let mut effects = Effects::none();
    for field in fields {
        let shape = field.shape;
        effects = effects.with_field(window(shape.lsb, shape.width), shape.policy);
    }
    effects
}

/// The masks of each register.
pub(crate) fn all_effects(
    alloc: Global,
    regs: &[RegRow],
    fields: &[FieldRow],
) -> Result<Vec<Effects>, AllocError>
    requires seats { AllHaveSeats fields.now }
    requires within { HaveFields regs.now fields.now }
    ensures { IfOk result (λ all. AreEffects regs.now fields.now all.items) }
{
    let mut all = Vec::new(alloc);
    for reg in regs {
        let first = reg.first as usize;
        all.push(effects_of(&fields[first..first + reg.count as usize]))?;
    }
    Ok(all)
}
