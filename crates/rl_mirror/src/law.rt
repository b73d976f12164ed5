//! What holds of updates, by this project's own update words. The function does nothing; its contract is
//! the law.
ghost use Rattle.rl_model.specs.Rows.{ChipData};
ghost use Rattle.rl_model.specs.Chip.{IsSound};
ghost use Rattle.rl_mirror.specs.Reachable.{UpdateBrings};

/// A write of the update word brings each field that it can reach to its desired value.
pub fn update_brings()
    ensures { (c : ChipData) → IsSound c → UpdateBrings c }
{}
