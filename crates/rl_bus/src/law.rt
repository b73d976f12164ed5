// Laws of the steps.
ghost use Rattle.rl_bus.specs.Reached.{KeepsBeats};

/// Each beat names a word, and there is none exactly where no word is.
pub fn beats_name_words()
    ensures { KeepsBeats }
{}
