//! What holds of every script and of each of its events. Each function does nothing; its contract is the law.
ghost use Rattle.rl_log.specs.Events.{EveryEventCounted, EveryEventLawful};
ghost use Rattle.rl_log.specs.Laws.{CodesTell, EntriesTellSteps, EveryBurstStops, EveryLogEnds, LinesAreLimited};
ghost use Rattle.rl_log.specs.Laws.{PassesWhereClean};
ghost use Rattle.rl_log.specs.Lines.{EveryLogTellsItsEvents};

/// Each event of a script, whatever its lines and the device: one that ended by a bus error left what is believed, and
/// a check names exactly the compared fields that differ from what was mirrored before it.
pub fn each_event_is_lawful()
    ensures { EveryEventLawful }
{}

/// The counts at the end of a script are those before it and each of its events.
pub fn each_event_is_counted()
    ensures { EveryEventCounted }
{}

/// The log of a script is that of its lines, and one last line: of the counts, or of the line that is refused.
pub fn each_log_has_one_last_line()
    ensures { EveryLogEnds }
{}

/// The log of a script is the text of its events in order, with the two lines of a sequence round its own, and one last
/// line: what is said of the events is said of the log.
pub fn each_log_tells_its_events()
    ensures { EveryLogTellsItsEvents }
{}

/// A script passed where nothing differed and nothing failed on the bus; the exit statuses distinguish the endings.
pub fn statuses_tell_endings()
    ensures passed { PassesWhereClean }
    ensures codes { CodesTell }
{}

/// A burst goes on up to and with the first location that ends by a bus error.
pub fn bursts_stop_at_an_error()
    ensures { EveryBurstStops }
{}

/// What is recorded of a line is its steps, and a line that says something is within the limits.
pub fn lines_tell_their_steps()
    ensures told { EntriesTellSteps }
    ensures limits { LinesAreLimited }
{}
