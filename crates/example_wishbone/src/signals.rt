// The signals of one classic single cycle of Wishbone B4, as the bus's master has them.
ghost use Rattle.std.specs.Prelude.{◌≡◌, if◌then◌else◌, not};
ghost use Rattle.rl_bus.specs.Wire.{Fits};
ghost use Rattle.example_wishbone.specs.Kinds.{wishbone_kind};

use rl_bus::{Answer, BusOp};

/// What the master drives while CYC_O and STB_O are high, by the names of the standard.
///
/// The port has 8, 16, 32 or 64 bits and a granularity of 8 bits. Its lowest address lines aren't there, so an address
/// is a multiple of the port's bytes. That a read drives 0 on DAT_O is this example's own: the standard leaves it open.
#[derive(Clone, Copy, Debug, PartialEq, Eq)]
pub(crate) struct Driven {
    /// WE_O: a write, and otherwise a read.
    pub(crate) we: bool,
    /// ADR_O, in bytes.
    pub(crate) adr: u32,
    /// DAT_O of a write.
    pub(crate) dat: u64,
    /// SEL_O: bit `l` selects byte `l` of the data, in a write and in a read.
    pub(crate) sel: u8,
    /// The bytes of the port.
    pub(crate) port: u8,
}

impl Driven {
    /// The cycle of an operation.
    pub(crate) fn of(op: &BusOp) -> Driven
        requires fits { Fits wishbone_kind op.now }
        ensures write_enable { result.we ≡ op.now.write }
        ensures address { result.adr ≡ op.now.address }
        ensures data { result.dat ≡ (if op.now.write then op.now.word else 0) }
        ensures selects { result.sel ≡ op.now.lanes }
        ensures port { result.port ≡ op.now.bytes }
    {
        Driven {
            we: op.write,
            adr: op.address as u32,
            dat: if op.write { op.word } else { 0 },
            sel: op.lanes,
            port: op.bytes,
        }
    }

    /// The operation that the cycle does.
    pub(crate) fn operation(&self) -> BusOp
        ensures { result ≡ record {
          write = self.now.we;
          address = self.now.adr;
          word = self.now.dat;
          lanes = self.now.sel;
          bytes = self.now.port;
        } }
    {
        BusOp {
            write: self.we,
            address: u64::from(self.adr),
            word: self.dat,
            lanes: self.sel,
            bytes: self.port,
        }
    }
}

/// What the slave drives where it ends the cycle. RTY_I, which is optional, isn't there.
#[derive(Clone, Copy, Debug, PartialEq, Eq)]
pub(crate) struct Ended {
    /// ACK_I: the cycle ended well.
    pub(crate) ack: bool,
    /// ERR_I: it ended by an error.
    pub(crate) err: bool,
    /// DAT_I, the word read.
    pub(crate) dat: u64,
}

impl Ended {
    /// The end that brings this answer: by exactly one of ACK_I and ERR_I.
    pub(crate) fn with(answer: &Answer) -> Ended
        ensures acknowledged { result.ack ≡ not answer.now.failed }
        ensures error { result.err ≡ answer.now.failed }
        ensures data { result.dat ≡ answer.now.word }
    {
        Ended {
            ack: !answer.failed,
            err: answer.failed,
            dat: answer.word,
        }
    }

    /// What is reported of it to the register layer.
    pub(crate) fn answer(&self) -> Answer
        ensures { result ≡ record { word = self.now.dat; failed = self.now.err } }
    {
        Answer {
            word: self.dat,
            failed: self.err,
        }
    }
}
