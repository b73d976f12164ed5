//! What the sequences find. Each function does nothing; its contract is the law.
ghost use Rattle.rl_detect_laws.specs.BitFlaws.{BitFlawIsNamed};
ghost use Rattle.rl_detect_laws.specs.BitTables.{DeafIsShown, NewOneHasFlaw, OtherPolicyIsShown, StuckIsShown};
ghost use Rattle.rl_detect_laws.specs.BitTables.{FirstValueIsShown, FirstValueIsShownBehind, FirstValueShowsDeaf};
ghost use Rattle.rl_detect_laws.specs.Deaf.{DeafMemoryIsFound, DeafRegisterIsNamed, NewOnesAgreeOnBits, NoneSpent};
ghost use Rattle.rl_detect_laws.specs.Deaf.{NewOneHasDeafMemory, NewOneHasLocations, OnlyDeafIsMarked, PoliciesTurn};
ghost use Rattle.rl_detect_laws.specs.Errors.{NthErrorIsFound, SharedErrorIsFound, VisitedErrorIsFound};
ghost use Rattle.rl_detect_laws.specs.Named.{NoLocationDiffers, NothingIsNamed};
ghost use Rattle.rl_detect_laws.specs.Otherwise.{HeldOtherwiseIsNamed, NewOneIsHeldOtherwise, PoliciesKeepApart};
ghost use Rattle.rl_detect_laws.specs.Policies.{NewOnesAgreeBut, OtherPolicyIsNeverNamed, OtherPolicyTellsNothing};
ghost use Rattle.rl_detect_laws.specs.Policies.{PoliciesWrittenAlike};
ghost use Rattle.rl_detect_laws.specs.Resets.{NewOneHasWrongResets, WrongResetIsNamed};
ghost use Rattle.rl_detect_laws.specs.Stuck.{NewOneHasStuckBit, PoliciesShowBeside, PoliciesShowTurned};
ghost use Rattle.rl_detect_laws.specs.Stuck.{StuckBitBesideIsNamed, StuckBitIsNamed, StuckResetIsNamed};

/// Where a device without flaws and a model without a volatile field agree, as new ones do, no event of a sequence
/// names a field.
pub fn nothing_is_named()
    ensures { NothingIsNamed }
{}

/// And no check of a location in `mem_walk` finds another value than was written there.
pub fn no_location_differs()
    ensures { NoLocationDiffers }
{}

/// Each sequence finds an address that answers errors, by a flaw of a range: where a word of a register or a location
/// is there, in a place that the sequence visits, some event ends by a bus error. The item that failed is of this word,
/// or of one before it in the location.
pub fn visited_error_is_found()
    ensures { VisitedErrorIsFound }
{}

/// `shared_access` finds it at each place of a register that it visits, also at one that may only be read.
pub fn shared_error_is_found()
    ensures { SharedErrorIsFound }
{}

/// Each finds an item that fails by its number, where the device took that item while the sequence ran: some event
/// ends by a bus error at the item with this number.
pub fn nth_error_is_found()
    ensures { NthErrorIsFound }
{}

/// `hw_reset` finds a wrong reset value: where a compared field of a register that it visits takes another value at a
/// HARD reset than the description says, some check names the field.
pub fn wrong_reset_is_named()
    ensures named { WrongResetIsNamed }
    ensures first { NewOneHasWrongResets }
{}

/// `mem_walk` finds a deaf memory. Let a memory that it visits take no write, and a location of it not hold its number
/// turned round, as the walk first writes there. Then the check of that location at each visited place is marked.
pub fn deaf_memory_is_found()
    ensures found { DeafMemoryIsFound }
    ensures first { NewOneHasDeafMemory }
{}

/// `mem_walk` marks no other event: each that is marked is the check of such a location of a deaf memory. So of two
/// deaf memories each has its own marks, and a memory that hears has none.
pub fn only_deaf_memories_are_marked()
    ensures only { OnlyDeafIsMarked }
    ensures first { NewOneHasLocations }
{}

/// `bit_bash` finds a stuck bit: where one bit of a compared field of a register that it visits is stuck, and
/// nothing else is wrong with the device, some check names the field. The field is RW, or has another policy by which
/// a write of the other value, after a read, is believed to leave something else than the stuck value.
pub fn stuck_bit_is_named()
    ensures named { StuckBitIsNamed }
    ensures policies { PoliciesShowTurned }
    ensures first { NewOneHasStuckBit }
{}

/// Where the register has another compared bit, so it is by a policy where a write of the same value does that: with
/// the law before, RW, WRC, WRS, W1T, W0T, W1SRC, W1CRS, W0SRC and W0CRS are found either way.
pub fn stuck_bit_beside_is_named()
    ensures named { StuckBitBesideIsNamed }
    ensures policies { PoliciesShowBeside }
{}

/// `hw_reset` finds a stuck bit of a compared field of a register that it visits, where the description says another
/// value for it at a HARD reset, and nothing else is wrong with the device.
pub fn stuck_reset_is_named()
    ensures { StuckResetIsNamed }
{}

/// `access_test` finds a deaf register. Let a register that it visits take no write over the bus, and a bit of a
/// compared field of it be believed as it is held. Then some check names the field, if it is RW, W1 before its first
/// write, or has another policy that turns the bit.
pub fn deaf_register_is_named()
    ensures named { DeafRegisterIsNamed }
    ensures policies { PoliciesTurn }
    ensures first { NewOnesAgreeOnBits }
    ensures unspent { NoneSpent }
{}

/// No sequence finds another policy of a field that takes each write as the described one does and answers the same, as
/// RW that a read clears or sets. That is where it never reads the field's register twice without a write between: its
/// events are then those of the device as it is described.
pub fn other_policy_is_never_named()
    ensures alike { OtherPolicyTellsNothing }
    ensures never { OtherPolicyIsNeverNamed }
    ensures policies { PoliciesWrittenAlike }
    ensures first { NewOnesAgreeBut }
{}

/// `bit_bash`, `access_test` and `shared_access` find a bit of a compared field that is held otherwise than it is
/// believed, as after a wrong reset value. Where by its policy a write leaves two different bits different, the first
/// check of its register after a write names the field.
pub fn held_otherwise_is_named()
    ensures named { HeldOtherwiseIsNamed }
    ensures policies { PoliciesKeepApart }
    ensures first { NewOneIsHeldOtherwise }
{}

/// `bit_bash`, `access_test` and `shared_access` find a bit of a compared field that is stuck, whose register is deaf,
/// or whose field has another policy, wherever their steps over this one bit show it: a computation over the table of
/// policies.
pub fn bit_flaw_is_named()
    ensures named { BitFlawIsNamed }
    ensures first { NewOneHasFlaw }
{}

/// By that computation these policies show a stuck bit, a deaf register and another policy: whatever the bit resets to,
/// or where it resets to 0, or to 1.
pub fn policies_are_shown()
    ensures stuck { StuckIsShown }
    ensures deaf { DeafIsShown }
    ensures other { OtherPolicyIsShown }
    ensures stuck_first { FirstValueIsShown }
    ensures stuck_behind { FirstValueIsShownBehind }
    ensures deaf_first { FirstValueShowsDeaf }
{}
