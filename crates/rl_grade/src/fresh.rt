// A flaw that is tried as by a program that was just started.
ghost use Rattle.std.specs.Prelude.{◌≡◌, IfOk, length};
ghost use Rattle.rl_grade.specs.Prelude.{IsBuiltWith, IsFlawOf, TasksFit, first_find, first_world, fresh_standings};
ghost use Rattle.rl_grade.specs.Prelude.{heard_by, kinds_of, with_flaw};

use crate::job::Task;
use crate::run::{Tried, try_flaw};
use crate::seen::Seen;
use rl_apb::fresh_adapters;
use rl_bench::Flaw;
use rl_bus::Adapters;
use rl_desc::Desc;
use std::alloc::{AllocError, Global};

// Tries one flaw over a plain and an APB adapter that have sent nothing. They are made here, since an adapter that is
// handed out has no proof.
pub(crate) fn try_afresh(
    alloc: Global,
    desc: Desc,
    flaw: Flaw,
    tasks: &[Task],
    base: &[Seen],
) -> Result<Tried, AllocError>
    requires built_with { IsBuiltWith desc.layout desc.chip }
    requires flaw { IsFlawOf desc.chip desc.layout flaw }
    requires kinds { desc.layout.kinds ≡ kinds_of fresh_standings }
    requires fits { TasksFit desc.chip (length desc.layout.maps) tasks.now }
    ensures desc { IfOk result (λ tried. tried.desc ≡ desc) }
    ensures found { IfOk result (λ tried. tried.found ≡ first_find base.now
        (heard_by (first_world (with_flaw desc flaw) fresh_standings) tasks.now)) }
{
    let (plain, apb) = fresh_adapters();
    let mut adapters: Adapters = Vec::new(alloc);
    adapters.push(Box::new(alloc, plain)?)?;
    adapters.push(Box::new(alloc, apb)?)?;
    try_flaw(alloc, desc, flaw, &mut adapters, tasks, base)
}
