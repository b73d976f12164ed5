// The two adapters that a program begins with.
ghost use Rattle.std.specs.Prelude.{◌≡◌};

use crate::ApbAdapter;
use rl_bus::PlainAdapter;

/// A plain and an APB adapter that have sent nothing. Their boxes are made by the caller: a function that handed out
/// boxed adapters could promise nothing of them.
pub fn fresh_adapters() -> (PlainAdapter, ApbAdapter)
    ensures plain { result.0 ≡ record { next_tag = 0; trail = 0 } }
    ensures apb { result.1 ≡ record { next_serial = 0; trail = 0 } }
{
    (
        PlainAdapter {
            next_tag: 0,
            trail: 0,
        },
        ApbAdapter {
            next_serial: 0,
            trail: 0,
        },
    )
}
