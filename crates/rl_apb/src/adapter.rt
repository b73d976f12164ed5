// The adapter for APB.
ghost use Rattle.std.specs.Prelude.{true, false};
ghost use Rattle.rl_bus.specs.Standing.{Standing};
ghost use Rattle.rl_apb.specs.Kinds.{apb_kind};

use rl_bus::{
    Adapter, AdapterKind, Answer, ApbTransfer, BusOp, Response, ShortName, Transfer,
    trail_of_answer, trail_of_operation,
};

/// The adapter of an APB bus (ARM IHI 0024, with the signals of APB4): a `uvm_reg_adapter` (IEEE 1800.2-2017, 19.2).
///
/// Of the standard are the byte enables of a write, which are PSTRB, that a read has none, and that
/// PSLVERR is the failure of a transfer. This project's own are the kind's limits, which are words of
/// 1, 2 and 4 bytes, addresses of 32 bits, and aligned addresses alone, and the serials and the trail.
#[derive(Clone, Copy, Debug, PartialEq, Eq, Drop)]
pub struct ApbAdapter {
    /// The serial that the next transfer gets.
    pub next_serial: u64,
    /// The trail of all operations and answers so far.
    pub trail: u64,
}

impl Adapter for ApbAdapter {
    ghost standing = { λ a. record { kind = apb_kind; tag = a.next_serial; trail = a.trail } };

    fn kind(&self) -> AdapterKind {
        AdapterKind {
            name: ShortName::of(b"apb").unwrap(),
            most_bytes: 4,
            most_address: 0xffff_ffff,
            aligned: true,
            write_lanes: true,
            read_lanes: false,
        }
    }

    fn reg2bus(&mut self, op: &BusOp) -> Transfer {
        let serial = self.next_serial;
        self.next_serial = serial.wrapping_add(1);
        self.trail = trail_of_operation(self.trail, op);
        Transfer::Apb(ApbTransfer {
            write: op.write,
            paddr: op.address as u32,
            pwdata: op.word as u32,
            pstrb: op.lanes,
            bytes: op.bytes,
            serial,
        })
    }

    fn bus2reg(&mut self, _transfer: &Transfer, response: &Response) -> Answer {
        let answer = response.answer();
        self.trail = trail_of_answer(self.trail, &answer);
        answer
    }
}
