// The adapter for Wishbone.
ghost use Rattle.std.specs.Prelude.{true, false};
ghost use Rattle.rl_bus.specs.Standing.{Standing};
ghost use Rattle.example_wishbone.specs.Kinds.{wishbone_kind};

use crate::signals::{Driven, Ended};
use rl_bus::{
    Adapter, AdapterKind, Answer, BusOp, PlainTransfer, Response, ShortName, Transfer,
    trail_of_answer, trail_of_operation,
};

/// The adapter of a Wishbone bus: each operation is one classic single cycle of Wishbone B4.
///
/// Of the standard are SEL_O in both directions, WE_O, addresses that are multiples of the port's bytes, and ERR_I as
/// the failure of a cycle. This example's own are the 32 lines of ADR_O, the tags and the trail.
#[derive(Clone, Copy, Debug, PartialEq, Eq, Drop)]
pub(crate) struct WishboneAdapter {
    pub(crate) next_tag: u64,
    pub(crate) trail: u64,
}

impl Adapter for WishboneAdapter {
    ghost standing = { λ a. record { kind = wishbone_kind; tag = a.next_tag; trail = a.trail } };

    fn kind(&self) -> AdapterKind {
        AdapterKind {
            name: ShortName::of(b"wishbone").unwrap(),
            most_bytes: 8,
            most_address: 0xffff_ffff,
            aligned: true,
            write_lanes: true,
            read_lanes: true,
        }
    }

    fn reg2bus(&mut self, op: &BusOp) -> Transfer {
        let tag = self.next_tag;
        self.next_tag = tag.wrapping_add(1);
        self.trail = trail_of_operation(self.trail, op);
        let driven = Driven::of(op);
        Transfer::Plain(PlainTransfer {
            op: driven.operation(),
            tag,
        })
    }

    fn bus2reg(&mut self, _transfer: &Transfer, response: &Response) -> Answer {
        let ended = Ended::with(&response.answer());
        let answer = ended.answer();
        self.trail = trail_of_answer(self.trail, &answer);
        answer
    }
}
