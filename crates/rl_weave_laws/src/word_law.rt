//! What holds of weaves, first on a device without flaws, and then on any device. Each function does nothing; its
//! contract is the law.
ghost use Rattle.rl_weave_laws.specs.AnyDevice.{BusErrorKeepsRegister, EachWordIsTaken, NoneOpenGathersNothing};
ghost use Rattle.rl_weave_laws.specs.AnyDevice.{UnsentAreBegun};
ghost use Rattle.rl_weave_laws.specs.Half.{FreshIsHalf, FreshIsUnsent, StepKeepsHalf, StepKeepsModel, NoneOpenAgrees};
ghost use Rattle.rl_weave_laws.specs.Order.{OrderDoesNotMatter};
ghost use Rattle.rl_weave_laws.specs.Runs.{EachStepsOnce, EndedAreAll, WeaveIsPlain, WeaveKeepsMemories};

/// A fresh weave has sent nothing: none of its open accesses has an item.
pub fn fresh_is_unsent()
    ensures { FreshIsUnsent }
{}

/// A device and a model that agree, and are a plain machine's, are a half done weave of the accesses that were
/// added and of which nothing was sent.
pub fn fresh_is_half()
    ensures { FreshIsHalf }
{}

/// A step of a half done weave leaves one. Its word doesn't fail. A middle word keeps the machine, and a last
/// one is a step of the machine: the access's event without its items is the machine's.
pub fn step_keeps_half()
    ensures { StepKeepsHalf }
{}

/// And it leaves a model: its predictor's lists and its mirror are again those of its chip and layout.
pub fn step_keeps_model()
    ensures { StepKeepsModel }
{}

/// Once no access is open the device and the model agree again, and are the machine's.
pub fn none_open_agrees()
    ensures { NoneOpenAgrees }
{}

/// A weave whose words went over the bus in any order is a course of the plain machine, which takes its accesses one
/// after another in the order in which they ended. The device and the model agree again, and are the machine's, and so
/// are the events without their items.
pub fn weave_is_plain()
    ensures { WeaveIsPlain }
{}

/// Where the device has each location of the memories as the machine has it, it has so again, and none has changed.
pub fn weave_keeps_memories()
    ensures { WeaveKeepsMemories }
{}

/// Its accesses all end, each once.
pub fn ended_are_all()
    ensures { EndedAreAll }
{}

/// The register of each access that is over took one step, of all its fields, and a read answered what that
/// answers; every other register is as it was.
pub fn each_steps_once()
    ensures { EachStepsOnce }
{}

/// And the order of the words doesn't matter: the model is that of the machine that takes the accesses in the order
/// of adding, and the events without their items are the machine's in some order.
pub fn order_does_not_matter()
    ensures { OrderDoesNotMatter }
{}

/// On any device: where the predictor has gathered nothing, the accesses of which nothing was sent are begun: their
/// items are their first words, and the predictor has gathered these. Once no access is open, it has gathered nothing
/// again.
pub fn unsent_are_begun()
    ensures begun { UnsentAreBegun }
    ensures nothing { NoneOpenGathersNothing }
{}

/// On any device: a word leaves each open access begun. The items of an event are the access's words in order, up to
/// and with the first that failed. What is believed changes at the last word alone, and once, by what the whole access
/// implies; not so where the access ends by a bus error.
pub fn each_word_is_taken()
    ensures { EachWordIsTaken }
{}

/// On any device: an access that ended by a bus error, or is still open, left the mirrored value, the desired value and
/// the marks of first writes of its register, whatever words of other accesses went between its own.
pub fn bus_error_keeps_register()
    ensures { BusErrorKeepsRegister }
{}
