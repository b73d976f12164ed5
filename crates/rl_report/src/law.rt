//! What holds of the text of events. Each function does nothing; its contract is the law.
ghost use Rattle.rl_report.specs.ReadBack.{OperationsReadBack};
ghost use Rattle.rl_report.specs.WithoutItems.{BuiltOnesHaveNames, ItemsAreIndented};

/// The lines of an event's items begin with two spaces, and the event's own line doesn't: the text of an
/// event, without the lines that begin with two spaces, is the text of the event without its items.
///
/// So it is for each model whose reset kinds and maps have names, which are letters, digits and `_`.
pub fn items_are_indented()
    ensures { ItemsAreIndented }
{}

/// The reset kinds and the maps have names where a chip and a layout can be built: parts with another name are
/// refused.
pub fn built_ones_have_names()
    ensures { BuiltOnesHaveNames }
{}

/// An operation line of a log reads back as the operation that it reports, so a log can be run again. What comes before
/// its first colon is a line of a script with the same command, item, numbers and map.
///
/// This holds for every event but that of a burst, which is in a log only where it was refused and doesn't have its
/// values. It holds for a refused operation too, and for each step of a sequence and each location of a burst. Reset
/// kinds and maps have names, as `built_ones_have_names` says, and numbers fit 64 bits, as those of an `Op` do.
pub fn operations_read_back()
    ensures { OperationsReadBack }
{}
