//! What holds of the lists of single flaws, of shares and finds, and of a script and its tasks. Each function does
//! nothing; its contract is the law.
ghost use Rattle.rl_grade.specs.First.{FindIsFirst};
ghost use Rattle.rl_grade.specs.Alike.{SilentChangesNoEvent, SilentIsNotFound, SilentLeavesTheLog};
ghost use Rattle.rl_grade.specs.NeverFound.{HiddenIsNotFound, UncheckedShowsNothing, UncheckedShowsTheSame};
ghost use Rattle.rl_grade.specs.Parts.{EachIsInOne, PlacesAddUp, ShareIsByNumber, WholeHasAll};
ghost use Rattle.rl_grade.specs.Run.{HeardAreEvents, RunDoesTasks, RunStopsThere};
ghost use Rattle.rl_grade.specs.Single.{NoneIsLeftOut, NoneIsMadeUp, NoneStandsTwice, PlacesAreApart};
ghost use Rattle.rl_grade.specs.Together.{FoundAsAlone, OwnFlawsAlone};

/// Each single flaw of a field, a register, a memory or a session is in its list. Of a field these are each bit stuck
/// at 0 and at 1, each value of a reset that is wrong in one bit, and each policy of another name. Of a register or
/// memory they are that it is deaf, and each address of its own; of a session the first and the last item.
pub fn none_is_left_out()
    ensures { NoneIsLeftOut }
{}

/// Each flaw of a list is one of these, of what the list is of.
pub fn none_is_made_up()
    ensures { NoneIsMadeUp }
{}

/// No flaw is twice in the list of a place.
pub fn none_stands_twice()
    ensures { NoneStandsTwice }
{}

/// No flaw is in the lists of two places.
pub fn places_are_apart()
    ensures { PlacesAreApart }
{}

/// The only share of one has every flaw, and of several shares exactly one has each flaw. A share has those flaws of a
/// list whose number it takes, whether they are gone over at once or place by place.
pub fn shares_have_each_flaw_once()
    ensures whole { WholeHasAll }
    ensures one { EachIsInOne }
    ensures by_number { ShareIsByNumber }
    ensures places { PlacesAddUp }
{}

/// A flaw is found exactly where some event shows more with it than the one of its number without it: names another
/// field, or ends by a bus error where that one doesn't. The answer is the first such event.
pub fn a_find_is_the_first_event_that_shows_more()
    ensures { FindIsFirst }
{}

/// The tasks that `read_script` reads are what a run of the script does, from each first state whose model has the same
/// chip and layout, whatever its flaws. Their events are those of the lines, each with the number of its line, and the
/// run comes to its end.
pub fn a_run_does_the_tasks()
    ensures { RunDoesTasks }
{}

/// Where `read_script` refuses a line, a run stops at that line, for the same reason.
pub fn a_run_stops_at_the_refused_line()
    ensures { RunStopsThere }
{}

/// The events of the lines are those of the judged log.
pub fn what_is_heard_are_the_events()
    ensures { HeardAreEvents }
{}

/// A silent flaw changes nothing that a script does. From the first state on, each event, each bus item and what is
/// believed after it are those of the device without the flaw. So is the log of each script, byte for byte. So no
/// script finds it.
pub fn a_silent_flaw_changes_no_event()
    ensures events { SilentChangesNoEvent }
    ensures log { SilentLeavesTheLog }
    ensures found { SilentIsNotFound }
{}

/// Where each field that a flaw could change is compared by no check, and no field that is compared in its register is
/// volatile, no script's event on this register names a field or ends by a bus error. So each event of a script names
/// the fields that it names without the flaw, and ends by a bus error where it does so without it; values may differ.
pub fn an_unchecked_flaw_shows_nothing()
    ensures register { UncheckedShowsNothing }
    ensures same { UncheckedShowsTheSame }
{}

/// No script finds a flaw that `is_hidden` names.
pub fn a_hidden_flaw_is_never_found()
    ensures found { HiddenIsNotFound }
{}

/// What the tasks show of a register depends on its own flaws alone, whatever flaws other registers have: the same
/// operations in the same places, their ends, the fields that differ, and what is believed afterwards. So does what
/// they show of memories, which depends on no register's flaws. So one run with a flaw each of several registers
/// finds each of them at the event of its register where a run with it alone finds it.
pub fn a_register_shows_its_own_flaws_alone()
    ensures events { OwnFlawsAlone }
    ensures found { FoundAsAlone }
{}
