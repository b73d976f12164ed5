// A device with other flaws than its description declares.
ghost use Rattle.std.specs.Prelude.{◌≡◌, All, IfOk};
ghost use Rattle.rl_grade.specs.Prelude.{IsBuiltWith, IsFlawOf, bench_state};
ghost use Rattle.rl_grade.specs.Together.{IsSoundDesc};
ghost use Rattle.rl_grade.specs.Trial.{IsTrialOf, described};

use rl_access::Model;
use rl_bench::{Bench, Flaw};
use rl_desc::Desc;
use rl_session::open;
use std::alloc::{AllocError, Global};

/// A model and its device with flaws of a trial's own.
#[derive(Drop)]
pub(crate) struct Trial {
    pub(crate) model: Model,
    pub(crate) bench: Bench,
    /// Those that the description declares.
    declared: Vec<Flaw>,
}

/// The first state of a description with these flaws and no others.
///
/// # Errors
///
/// Want of memory.
pub(crate) fn begin(alloc: Global, desc: Desc, flaws: &[Flaw]) -> Result<Trial, AllocError>
    requires built_with { IsBuiltWith desc.layout desc.chip }
    requires flaws { All (IsFlawOf desc.chip desc.layout) flaws.now }
    ensures begun { IfOk result (λ trial.
        IsTrialOf desc flaws.now trial.model (bench_state trial.bench) trial.declared.items) }
    ensures sound { IfOk result (λ trial. IsSoundDesc desc) }
{
    let mut own = Vec::new(alloc);
    own.extend_from_slice(flaws)?;
    let Desc {
        chip,
        layout,
        flaws: declared,
    } = desc;
    let flawed = Desc {
        chip,
        layout,
        flaws: own,
    };
    let (model, bench) = open(alloc, flawed)?;
    Ok(Trial {
        model,
        bench,
        declared,
    })
}

impl Trial {
    /// The description again.
    pub(crate) fn end(self) -> Desc
        ensures { result ≡ described self.model self.declared.items }
    {
        let Trial {
            model,
            bench: _,
            declared,
        } = self;
        let (chip, layout) = model.into_parts();
        Desc {
            chip,
            layout,
            flaws: declared,
        }
    }
}
