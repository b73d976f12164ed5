//! What holds of the log of a group that is run. Each function does nothing; its contract is the law.
ghost use Rattle.rl_weave_laws.specs.AnyDevice.{EachGroupRuns};
ghost use Rattle.rl_weave_laws.specs.Endings.{EveryWovenLogEnds};
ghost use Rattle.rl_weave_laws.specs.Groups.{GroupIsPlain, NoneIsOpen};
ghost use Rattle.rl_weave_laws.specs.Scripts.{EveryWovenLogPlain, ScriptIsPlain, WovenLogIsPlain};

/// The words that a group sends, at most 512, are all that its accesses have: none is open after them.
pub fn none_is_open()
    ensures { NoneIsOpen }
{}

/// On a device without flaws, and where no field is volatile, what a group writes is, without its item lines, the event
/// lines of the plain machine that takes its accesses one after another, in some order. Device and model agree again
/// after the group, and are the machine's, and the counts rise as the machine's.
pub fn group_is_plain()
    ensures { GroupIsPlain }
{}

/// And so does a whole script. Without its item lines its log has, group by group, the lines that the plain log has for
/// the group's lines, in some order. Then comes the plain log's last line, or the one that says where the weave stops.
pub fn script_is_plain()
    ensures { ScriptIsPlain }
{}

/// So does a session whose description declares no flaw and no volatile field. One that is refused before its script
/// writes the plain log.
pub fn woven_log_is_plain()
    ensures opened { WovenLogIsPlain }
    ensures every { EveryWovenLogPlain }
{}

/// The log of a woven script, whatever the device, is that of the groups that are run, and one last line: of the
/// counts, or of the line that is refused.
pub fn each_woven_log_has_one_last_line()
    ensures { EveryWovenLogEnds }
{}

/// On the device model, with whatever flaws, the words of a group are steps of its weave, to which the laws of words
/// over any device apply. The group writes their lines and counts their events, and the next group may begin after it.
pub fn each_group_runs()
    ensures { EachGroupRuns }
{}
