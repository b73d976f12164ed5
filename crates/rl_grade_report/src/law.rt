//! What holds of the flaws that a grading goes over, place by place, of its shares, and of waivers. Each function does
//! nothing; its contract is the law.
ghost use Rattle.rl_grade_report.specs.Plain.{NoWaiverWaivesNone, NoneWaivedIsPlain};
ghost use Rattle.rl_grade_report.specs.Together.{SumsAreOfAll};
ghost use Rattle.rl_grade_report.specs.Whole.{EachIsGraded, NoOtherIsGraded, NoneIsGradedTwice};

use rl_grade::law::shares_have_each_flaw_once;

/// Each single flaw of a description, as `none_is_left_out` of `rl_grade` says what they are, is at one of the places
/// that a grading goes over: of each register, field and memory of its chip, and of the session.
pub fn each_flaw_is_graded()
    ensures { EachIsGraded }
{}

/// No other flaw is.
pub fn no_other_flaw_is_graded()
    ensures { NoOtherIsGraded }
{}

/// No flaw is twice among those of all places.
pub fn no_flaw_is_graded_twice()
    ensures { NoneIsGradedTwice }
{}

/// Where shares of one grading are added, in any order and each with what the grading counts of it, the sums are what
/// it counts of all flaws.
pub fn shares_add_up_to_the_whole()
    ensures { SumsAreOfAll }
{
    shares_have_each_flaw_once();
}

/// Where no row waives a flaw, no flaw is waived, and none that is found.
pub fn no_waiver_waives_none()
    ensures { NoWaiverWaivesNone }
{}

/// Where none is, the last line, the counts of a kind, the flaws of a place in words, and the counts in JSON tell of
/// found, missed and hidden flaws alone, byte for byte.
pub fn nothing_is_told_of_no_waivers()
    ensures { NoneWaivedIsPlain }
{}
