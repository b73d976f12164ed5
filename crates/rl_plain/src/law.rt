//! What holds of the calls on a device without flaws. Each function does nothing; its contract is the law.
ghost use Rattle.rl_plain.specs.Prelude.{AccessIsBelieved, AccessIsStep, AlikeLayoutsStepAlike};
ghost use Rattle.rl_plain.specs.Prelude.{BrokenPlanIsPlain, BrokenRunIsPlain, BurstHandsOverFront, BurstIsPlain};
ghost use Rattle.rl_plain.specs.Prelude.{BurstsHaveNumbers, CallIsPlain, CallKeepsModel, DepositIsBelieved};
ghost use Rattle.rl_plain.specs.Prelude.{EachCallKeepsAgreement, FirstOnesArePlain, KeepsAgreement};
ghost use Rattle.rl_plain.specs.Prelude.{MemoryAccessKeepsAgreement, NewOnesAgree, NewOnesAgreeWithMemories};
ghost use Rattle.rl_plain.specs.Prelude.{OtherStepsCommute, PlanIsPlain, PlansHaveNumbers, RefusedIsPlain};
ghost use Rattle.rl_plain.specs.Prelude.{RegisterCallIsPlain, ResetIsPlain, RunIsPlain, SequenceHandsOverFront};
ghost use Rattle.rl_plain.specs.Prelude.{WriteIsStored};
ghost use Rattle.rl_plain.specs.Sorts as sort;

use rl_access::Recorder;

/// An access over the bus is one step of its register: of all its fields, or in a narrow access of its one
/// field.
pub fn access_is_step()
    ensures { AccessIsStep }
{}

/// A new device without flaws and a new model of the same chip and layout agree, where no field is volatile.
pub fn new_ones_agree()
    ensures { NewOnesAgree }
{}

/// An access over the bus leaves a device and a model that agree in agreement.
pub fn access_keeps_agreement()
    ensures { KeepsAgreement sort.access }
{}

/// So do `set` and `show`.
pub fn wish_keeps_agreement()
    ensures { KeepsAgreement sort.wish }
{}

/// So do the operations of the backdoor on registers.
pub fn backdoor_keeps_agreement()
    ensures { KeepsAgreement sort.backdoor }
{}

/// The backdoor of a memory leaves a device and a model that agree in agreement.
pub fn memory_backdoor_keeps_agreement()
    ensures { KeepsAgreement sort.memory_backdoor }
{}

/// So does an access to a memory over the bus, where the device has the memory's locations.
pub fn memory_access_keeps_agreement()
    ensures { MemoryAccessKeepsAgreement }
{}

/// So does a reset of any kind.
pub fn reset_keeps_agreement()
    ensures { KeepsAgreement sort.reset }
{}

/// And so does a change by the hardware, which is refused there: no field is volatile.
pub fn hardware_keeps_agreement()
    ensures { KeepsAgreement sort.hardware }
{}

/// From a device and a model that are the plain machine's, each call leaves them so, and its event without its
/// items is the machine's, also where the call is refused. The machine steps whole registers and locations.
pub fn call_is_plain()
    ensures { CallIsPlain }
{}

/// The model is then again one of the same chip and layout.
pub fn call_keeps_model()
    ensures { CallKeepsModel }
{}

/// A call that isn't on a location of a memory is the machine's whatever the device has in its locations.
pub fn register_call_is_plain()
    ensures { RegisterCallIsPlain }
{}

/// A new device without flaws and a new model of the same chip and layout are the first machine's, where no
/// field is volatile.
pub fn first_ones_are_plain()
    ensures { FirstOnesArePlain }
{}

/// Operations one after another are the machine's: none of them ends by a bus error.
pub fn run_is_plain()
    ensures { RunIsPlain }
{}

/// So is a burst, which is done as its locations or refused by its name.
pub fn burst_is_plain()
    ensures { BurstIsPlain }
{}

/// The operations of a burst on a memory have their numbers.
pub fn bursts_have_numbers()
    ensures { BurstsHaveNumbers }
{}

/// So are the operations of a plan whose operations have their numbers, whatever is then believed.
pub fn plan_is_plain()
    ensures { PlanIsPlain }
{}

/// Those of the five sequences have.
pub fn plans_have_numbers()
    ensures { PlansHaveNumbers }
{}

/// An operation that is refused as a whole changes nothing, and its event is the machine's.
pub fn refused_is_plain()
    ensures { RefusedIsPlain }
{}

/// From a device and a model that agree, an access over the bus that isn't refused takes its step in what is believed
/// of its register, and leaves what is believed of every other one.
pub fn access_is_believed()
    ensures { AccessIsBelieved }
{}

/// A write that was done leaves just its value in a register that has one field alone, an RW one from bit 0 on.
pub fn write_is_stored()
    ensures { WriteIsStored }
{}

/// A deposit in a register of the device that the model takes over leaves both in agreement.
pub fn deposit_is_believed()
    ensures { DepositIsBelieved }
{}

/// Accesses of other masters to different registers may come in either order: the machine is then the same, and so is
/// the event of each.
pub fn other_steps_commute()
    ensures { OtherStepsCommute }
{}

/// Where a recorder fails at an event of a burst, the operations up to that one are the machine's.
pub fn broken_run_is_plain()
    ensures { BrokenRunIsPlain }
{}

/// So are those of a plan.
pub fn broken_plan_is_plain()
    ensures { BrokenPlanIsPlain }
{}

/// What a burst hands over to a recorder, also where it is refused or the recorder fails, is a prefix of the machine's
/// events, and device and model are the machine's after the last of them. It is said of the clause `hands_over` of
/// `rl_access::burst_write` and `rl_access::burst_read`.
pub fn burst_hands_over_front<R: Recorder>()
    ensures { BurstHandsOverFront R.takes R.breaks }
{}

/// So is what each of the five sequences hands over, by the clause `hands_over` of its call in `rl_seq`.
pub fn sequence_hands_over_front<R: Recorder>()
    ensures { SequenceHandsOverFront R.takes R.breaks }
{}

/// The machine looks at a layout only through the places of an item, their maps and rights, which roots are explicit,
/// and which accesses are narrow: layouts that are alike in these give the same steps and events.
pub fn alike_layouts_step_alike()
    ensures { AlikeLayoutsStepAlike }
{}

/// Where a device and a model agree and the device has each location of the memories, any call leaves them so: an
/// access to a memory finds what it asks for after whatever came before it.
pub fn each_call_keeps_agreement()
    ensures { EachCallKeepsAgreement }
{}

/// A new device without flaws and a new model of the same chip and layout begin so, where no field is volatile.
pub fn new_ones_agree_with_memories()
    ensures { NewOnesAgreeWithMemories }
{}

/// What is believed after a reset, and what its event says, is the plain machine's, whatever the kind is and whether
/// or not the model is sound.
pub fn reset_is_plain()
    ensures { ResetIsPlain }
{}
