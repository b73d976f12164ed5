//! What an operation was, and how it ended.
use crate::trace::Trace;

/// Why an operation was refused. A refused operation sends nothing and changes nothing. The causes and
/// their order are this project's own.
#[derive(Clone, Copy, Debug, PartialEq, Eq)]
pub enum Refused {
    /// The item has no place, or none in the map that was asked for.
    NotPlaced,
    /// Another master's access goes through a root map that no predictor watches.
    NotObserved,
    /// The place lacks the right of the direction.
    NoRight,
    /// The register or the memory has no backdoor.
    NoBackdoor,
    /// The hardware changes volatile fields alone.
    NotVolatile,
    /// The memory is read-only.
    NotWritable,
    /// A location at or past the memory's size.
    OutOfRange,
    /// A value that the register, the field or the location can't hold.
    TooWide,
}

/// How an operation ended.
#[derive(Clone, Copy, Debug, PartialEq, Eq)]
pub enum End {
    /// It was done, and there is nothing more to say.
    Done,
    /// The value that was read: of a field access the field's.
    Value { value: u64 },
    /// The word that an update sent.
    Sent { word: u64 },
    /// An update that had nothing to send.
    Nothing,
    /// The number of the failed item in this access, counted from 0.
    BusError { word: u32 },
    /// It was refused, for this cause.
    Refused { why: Refused },
}

/// An operation. Registers, fields, memories, maps and kinds are the numbers that the chip and the layout give
/// them; `index` and `first` are locations of a memory.
///
/// `map` in an event is the map of the place that was used, or the one that was asked for where there is no such
/// place.
///
/// Each names the method that it stands for, of `uvm_reg` (IEEE 1800.2-2017, 18.4), of `uvm_reg_field` (18.5) or of
/// `uvm_mem` (18.6), or says that it is this project's own.
#[derive(Clone, Copy, Debug, PartialEq, Eq)]
pub enum Op {
    /// Writes a register over the bus: `uvm_reg::write`.
    Write {
        reg: u32,
        map: Option<u32>,
        value: u64,
    },
    /// Reads a register over the bus: `uvm_reg::read`.
    Read {
        reg: u32,
        map: Option<u32>,
    },
    /// Reads a register over the bus to learn its value: `uvm_reg::mirror`.
    Mirror {
        reg: u32,
        map: Option<u32>,
    },
    /// Reads a register over the bus, and compares what was read with what was mirrored: `uvm_reg::mirror` with
    /// `UVM_CHECK`.
    Check {
        reg: u32,
        map: Option<u32>,
    },
    /// Writes a field over the bus: `uvm_reg_field::write`.
    FieldWrite {
        field: u32,
        map: Option<u32>,
        value: u64,
    },
    /// Reads a field over the bus: `uvm_reg_field::read`.
    FieldRead {
        field: u32,
        map: Option<u32>,
    },
    /// Gives a field a desired value: `uvm_reg_field::set`.
    Set {
        field: u32,
        value: u64,
    },
    /// Tells the mirrored and the desired value of a register: `uvm_reg_field::get_mirrored_value` and `get` of its
    /// fields.
    Show {
        reg: u32,
    },
    /// Brings a register to its desired value, by a write over the bus where one is needed: `uvm_reg::update`.
    Update {
        reg: u32,
        map: Option<u32>,
    },
    /// Writes a register by the backdoor, with each field's write effect: `uvm_reg::write`.
    BackWrite {
        reg: u32,
        value: u64,
    },
    /// Reads a register by the backdoor, with each field's read effect: `uvm_reg::read`.
    BackRead {
        reg: u32,
    },
    /// Reads a register by the backdoor, and compares what was read with what was mirrored: `uvm_reg::mirror` with
    /// `UVM_CHECK`.
    BackCheck {
        reg: u32,
    },
    /// Samples the bits of a register: `uvm_reg::peek`.
    Peek {
        reg: u32,
    },
    /// Deposits bits in a register: `uvm_reg::poke`.
    Poke {
        reg: u32,
        value: u64,
    },
    /// Writes a location of a memory over the bus: `uvm_mem::write`.
    MemWrite {
        mem: u32,
        map: Option<u32>,
        index: u64,
        value: u64,
    },
    /// Reads a location of a memory over the bus: `uvm_mem::read`.
    MemRead {
        mem: u32,
        map: Option<u32>,
        index: u64,
    },
    /// Reads a location of a memory over the bus, and compares what was read with the value: this project's own.
    MemCheck {
        mem: u32,
        map: Option<u32>,
        index: u64,
        value: u64,
    },
    /// Writes `count` locations from `first` on: `uvm_mem::burst_write`. As an event it is one that was refused as a
    /// whole.
    BurstWrite {
        mem: u32,
        map: Option<u32>,
        first: u64,
        count: u64,
    },
    /// Reads `count` locations from `first` on: `uvm_mem::burst_read`. As an event it is one that was refused as a
    /// whole.
    BurstRead {
        mem: u32,
        map: Option<u32>,
        first: u64,
        count: u64,
    },
    /// Samples a location of a memory: `uvm_mem::peek`.
    MemPeek {
        mem: u32,
        index: u64,
    },
    /// Deposits a value in a location of a memory: `uvm_mem::poke`.
    MemPoke {
        mem: u32,
        index: u64,
        value: u64,
    },
    /// Another master writes a register over the bus: this project's own.
    OtherWrite {
        reg: u32,
        map: Option<u32>,
        value: u64,
    },
    /// Another master reads a register over the bus: this project's own.
    OtherRead {
        reg: u32,
        map: Option<u32>,
    },
    /// The hardware changes a volatile field: this project's own.
    Hw {
        field: u32,
        value: u64,
    },
    /// Resets the chip: `uvm_reg_field::reset` of each field. Kind 0 is HARD, kind 1 is SOFT.
    Reset {
        kind: u32,
    },
}

/// An operation with its end, the items that it sent, and the mirrored and the desired value of its
/// register afterwards, which are 0 for a memory operation or a reset.
///
/// Bit `i` of `differ` is for the `i`-th field of the register, and is set where a check read other bits than were
/// mirrored. For the check of a memory's location `differ` is 1 where it read another value than the given one.
#[derive(Drop)]
pub struct Event {
    /// The operation, with the map that was used.
    pub op: Op,
    /// How it ended.
    pub end: End,
    /// The items that it sent, in order.
    pub trace: Trace,
    /// The mirrored value of its register afterwards.
    pub mirrored: u64,
    /// The desired value of its register afterwards.
    pub desired: u64,
    /// The fields that a check found to differ.
    pub differ: u64,
}

impl Event {
    ghost use Rattle.std.specs.Prelude.{◌≡◌, []};
    ghost use Rattle.rl_access.specs.declared.event.End.TheVariants as end;

    /// An event that a call may fill. It has no items, and reports nothing that was done.
    pub fn blank() -> Event
        ensures no_items { result.trace ≡ [] }
    {
        Event {
            op: Op::Reset { kind: 0 },
            end: End::Done,
            trace: Trace::new(),
            mirrored: 0,
            desired: 0,
            differ: 0,
        }
    }

    /// Becomes that of an operation that has sent nothing yet.
    pub(crate) fn begin(&mut self, op: Op)
        ensures { self.new ≡ record { op = op; end = end.Done; trace = []; mirrored = 0; desired = 0; differ = 0 } }
    {
        self.op = op;
        self.end = End::Done;
        self.trace.clear();
        self.mirrored = 0;
        self.desired = 0;
        self.differ = 0;
    }
}

/// What a burst or a sequence did: its steps, the differing fields and memory checks, and the bus errors.
/// Each count stays at `u64::MAX`.
#[derive(Clone, Copy, Debug, PartialEq, Eq)]
pub struct Tally {
    /// The operations that were done or refused.
    pub steps: u64,
    /// The differing fields, and the memory checks that read another value.
    pub differences: u64,
    /// The operations that ended by a bus error.
    pub errors: u64,
}
