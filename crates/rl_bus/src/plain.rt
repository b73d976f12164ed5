// The adapter that sends an operation as it is.
ghost use Rattle.std.specs.Prelude.{true, false};
ghost use Rattle.rl_bus.specs.Standing.{Standing};
ghost use Rattle.rl_bus.specs.Kinds.{plain_kind};

use crate::{
    Adapter, AdapterKind, Answer, BusOp, PlainTransfer, Response, ShortName, Transfer,
    trail_of_answer, trail_of_operation,
};

/// The adapter of a bus that carries every operation as it is, with byte enables in both directions.
/// The bus is this project's own.
#[derive(Clone, Copy, Debug, PartialEq, Eq, Drop)]
pub struct PlainAdapter {
    /// The tag that the next transfer gets.
    pub next_tag: u64,
    /// The trail of all operations and answers so far.
    pub trail: u64,
}

impl Adapter for PlainAdapter {
    ghost standing = { λ a. record { kind = plain_kind; tag = a.next_tag; trail = a.trail } };

    fn kind(&self) -> AdapterKind {
        AdapterKind {
            name: ShortName::of(b"plain").unwrap(),
            most_bytes: 8,
            most_address: u64::MAX,
            aligned: false,
            write_lanes: true,
            read_lanes: true,
        }
    }

    fn reg2bus(&mut self, op: &BusOp) -> Transfer {
        let tag = self.next_tag;
        self.next_tag = tag.wrapping_add(1);
        self.trail = trail_of_operation(self.trail, op);
        Transfer::Plain(PlainTransfer { op: *op, tag })
    }

    fn bus2reg(&mut self, _transfer: &Transfer, response: &Response) -> Answer {
        let answer = response.answer();
        self.trail = trail_of_answer(self.trail, &answer);
        answer
    }
}
