//! The laws of what a description describes. Each function does nothing; its contract is the law.
ghost use Rattle.rl_session_laws.specs.Sound.{EveryChipSound, EveryLayoutSound, EveryLogIsPlain, EveryOpeningSound};

/// The parts of a chip that no condition refuses make a chip whose fields lie inside their registers and apart, whose
/// paths differ, and which is within the limits.
pub fn each_chip_is_sound()
    ensures { EveryChipSound }
{}

/// The maps and places that no condition refuses make a layout of the chip, in which each byte is in one word,
/// and what is at an address is one item's.
pub fn each_layout_is_sound()
    ensures { EveryLayoutSound }
{}

/// The model that a session opens with is sound.
pub fn each_opening_is_sound()
    ensures { EveryOpeningSound }
{}

/// The judged log of each session, without its item lines, is the log of the plain machine, where the description
/// declares no flaw and no volatile field, and where the session is refused before its script.
pub fn each_log_is_plain()
    ensures { EveryLogIsPlain }
{}
