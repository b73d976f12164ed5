//! The law of split accesses.
//!
//! The items of an access to a register, over any path of maps, widths and byte orders, are together one
//! step of the register: of all its fields, or in a narrow access of one. No item fails, and nothing else
//! changes. So it is on every device without flaws whose beats are all 0 and that has one mark per field.
ghost use Rattle.rl_split.specs.Law.{WholeWriteIsStep, WholeReadIsStep, NarrowWriteIsStep, NarrowReadIsStep};
ghost use Rattle.rl_split.specs.Law.{MemoryWriteIsStore, MemoryReadIsLoad};
ghost use Rattle.rl_split.specs.Seats.{OperationsAreBySeats, ValueIsBySeats};
ghost use Rattle.rl_split.specs.UnderWay.{NoneSentIsUnderWay, NextWordGoesOn, OthersStayUnderWay};
ghost use Rattle.rl_split.specs.UnderWay.{AllSentIsWrite, AllSentIsRead};

/// Each chosen byte is carried by one operation, at the address and the lane of its seat.
pub fn operations_are_by_seats()
    ensures { OperationsAreBySeats }
{}

/// The value of a read has each chosen byte from its answer, at the lane of the byte's seat, and 0 elsewhere.
pub fn value_is_by_seats()
    ensures { ValueIsBySeats }
{}

/// A whole write is one write of all fields.
pub fn whole_write_is_step()
    ensures { WholeWriteIsStep }
{}

/// A whole read is one read of all fields, and brings what that answers.
pub fn whole_read_is_step()
    ensures { WholeReadIsStep }
{}

/// A narrow write is one write of its field.
pub fn narrow_write_is_step()
    ensures { NarrowWriteIsStep }
{}

/// A narrow read is one read of its field, and brings what that answers.
pub fn narrow_read_is_step()
    ensures { NarrowReadIsStep }
{}

/// A write of a location stores the value there.
pub fn memory_write_is_store()
    ensures { MemoryWriteIsStore }
{}

/// A read of a location brings what is stored there, and changes nothing.
pub fn memory_read_is_load()
    ensures { MemoryReadIsLoad }
{}

/// An access of which no word was sent is under way from the device as it is.
pub fn none_sent_is_under_way()
    ensures { NoneSentIsUnderWay }
{}

/// The next word of an access that is under way beside others is answered as if its words had been sent alone,
/// and changes its register and the beat of its address alone.
pub fn next_word_goes_on()
    ensures { NextWordGoesOn }
{}

/// It leaves each access to another register under way as it was.
pub fn others_stay_under_way()
    ensures { OthersStayUnderWay }
{}

/// Once all words of a write were sent, beside whatever others, its register took one write of all fields.
pub fn all_sent_is_write()
    ensures { AllSentIsWrite }
{}

/// And once all words of a read were, one read of all fields.
pub fn all_sent_is_read()
    ensures { AllSentIsRead }
{}
