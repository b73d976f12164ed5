// What stands on the wires, in the form of each adapter.
ghost use Rattle.std.specs.Prelude.{◌≡◌, ◌≤◌, ◌^◌, ◌-◌, ◌<◌, true, false};
ghost use Rattle.rl_bus.specs.Wire.{
  carried_by,
  tag_of,
  IsWellFormed,
  IsReplyTo,
  IsAtOnce,
  answered_by,
};

use crate::{Answer, BusOp};

/// An operation as it is, and its tag.
#[derive(Clone, Copy, Debug, PartialEq, Eq)]
pub struct PlainTransfer {
    /// The operation.
    pub op: BusOp,
    /// The number that its adapter gave it. The response carries the same.
    pub tag: u64,
}

/// An answer as it is, and the tag of the transfer that it belongs to.
#[derive(Clone, Copy, Debug, PartialEq, Eq)]
pub struct PlainResponse {
    /// The word that was read.
    pub word: u64,
    /// Whether the transfer failed.
    pub failed: bool,
    /// The tag of the transfer.
    pub tag: u64,
}

/// The requester's side of one APB transfer: PWRITE, PADDR, PWDATA and PSTRB of ARM IHI 0024.
///
/// The width of the data bus and the serial are beside the signals; the serial is this project's
/// own.
#[derive(Clone, Copy, Debug, PartialEq, Eq)]
pub struct ApbTransfer {
    /// PWRITE: a write, and otherwise a read.
    pub write: bool,
    /// PADDR.
    pub paddr: u32,
    /// PWDATA.
    pub pwdata: u32,
    /// PSTRB: bit `l` enables byte `l` of PWDATA. APB has no strobes in a read: there this is no signal, and
    /// the transfer reads all bytes.
    pub pstrb: u8,
    /// The width of the data bus in bytes: 1, 2 or 4.
    pub bytes: u8,
    /// The number that its adapter gave it. The response carries the same.
    pub serial: u64,
}

/// The completer's side of one APB transfer: PRDATA and PSLVERR of ARM IHI 0024 in its last cycle, and how many wait
/// cycles came before.
#[derive(Clone, Copy, Debug, PartialEq, Eq)]
pub struct ApbResponse {
    /// PRDATA: the word read. APB says nothing of it in a write: that a write has one is this project's own.
    pub prdata: u32,
    /// PSLVERR: the transfer failed.
    pub pslverr: bool,
    /// In how many cycles of the access phase PREADY is low.
    pub waits: u8,
    /// The serial of the transfer.
    pub serial: u64,
}

/// What an adapter sends to a device.
#[derive(Clone, Copy, Debug, PartialEq, Eq)]
pub enum Transfer {
    /// Of any bus but APB.
    Plain(PlainTransfer),
    /// Of an APB bus.
    Apb(ApbTransfer),
}

/// What a device sends back, in the form of the transfer.
#[derive(Clone, Copy, Debug, PartialEq, Eq)]
pub enum Response {
    /// To a plain transfer.
    Plain(PlainResponse),
    /// To an APB transfer.
    Apb(ApbResponse),
}

/// The operation that a transfer carries.
pub fn carried(transfer: &Transfer) -> BusOp
    requires { IsWellFormed transfer.now }
    ensures { result ≡ carried_by transfer.now }
{
    match transfer {
        Transfer::Plain(plain) => plain.op,
        Transfer::Apb(apb) => BusOp {
            write: apb.write,
            address: u64::from(apb.paddr),
            word: u64::from(apb.pwdata),
            lanes: if apb.write {
                apb.pstrb
            } else {
                all_lanes(apb.bytes)
            },
            bytes: apb.bytes,
        },
    }
}

impl Transfer {
    /// Its tag or serial.
    pub fn tag(&self) -> u64
        ensures { result ≡ tag_of self.now }
    {
        match self {
            Transfer::Plain(plain) => plain.tag,
            Transfer::Apb(apb) => apb.serial,
        }
    }
}

impl Response {
    /// What it answers.
    pub fn answer(&self) -> Answer
        ensures { result ≡ answered_by self.now }
    {
        match self {
            Response::Plain(plain) => Answer {
                word: plain.word,
                failed: plain.failed,
            },
            Response::Apb(apb) => Answer {
                word: u64::from(apb.prdata),
                failed: apb.pslverr,
            },
        }
    }
}

/// The response to a transfer with this answer, without wait cycles.
pub fn response_to(transfer: &Transfer, answer: Answer) -> Response
    requires well_formed { IsWellFormed transfer.now }
    requires small { answer.word < 256 ^ (carried_by transfer.now).bytes }
    ensures reply { IsReplyTo transfer.now result }
    ensures answer { answered_by result ≡ answer }
    ensures at_once { IsAtOnce result }
{
    match transfer {
        Transfer::Plain(plain) => Response::Plain(PlainResponse {
            word: answer.word,
            failed: answer.failed,
            tag: plain.tag,
        }),
        Transfer::Apb(apb) => Response::Apb(ApbResponse {
            prdata: answer.word as u32,
            pslverr: answer.failed,
            waits: 0,
            serial: apb.serial,
        }),
    }
}

// One bit for each byte.
fn all_lanes(bytes: u8) -> u8
    requires { bytes ≤ 8 }
    ensures { result ≡ 2 ^ bytes - 1 }
{
    ((1u16 << bytes) - 1) as u8
}
