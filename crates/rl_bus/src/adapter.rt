// An adapter turns an operation into a transfer on its wires, and a response back into an answer.
ghost use Rattle.std.specs.Prelude.{◌≡◌};
ghost use Rattle.rl_bus.specs.Standing.{Standing, asked, told};
ghost use Rattle.rl_bus.specs.Wire.{
  carried_by,
  tag_of,
  IsWellFormed,
  IsReplyTo,
  answered_by,
  Fits,
};

use crate::{AdapterKind, Answer, BusOp, Response, Transfer};

/// The adapter between the register layer and one sort of bus: `uvm_reg_adapter` (IEEE 1800.2-2017, 19.2).
///
/// Beside its kind it has a next tag, which numbers its operations, and a trail, a number that takes
/// in each operation and each answer. The trail is this project's own: it shows which items really
/// went through the adapter.
pub trait Adapter: Drop {
    /// Its kind, its next tag and its trail.
    ghost standing: { Self → Standing };

    /// Which operations it carries, and whether with byte enables (`uvm_reg_adapter::supports_byte_enable`). This never
    /// changes.
    fn kind(&self) -> AdapterKind
        ensures { result ≡ (standing self.now).kind };

    /// The transfer of an operation: `uvm_reg_adapter::reg2bus` (IEEE 1800.2-2017, 19.2). It takes the next tag, and
    /// the trail takes the operation.
    fn reg2bus(&mut self, op: &BusOp) -> Transfer
        requires fits { Fits (standing self.old).kind op.now }
        ensures carries { carried_by result ≡ op.now }
        ensures tag { tag_of result ≡ (standing self.old).tag }
        ensures well_formed { IsWellFormed result }
        ensures standing { standing self.new ≡ asked (standing self.old) op.now };

    /// What the response to a transfer answers: `uvm_reg_adapter::bus2reg` (IEEE 1800.2-2017, 19.2). The trail takes
    /// the answer.
    fn bus2reg(&mut self, transfer: &Transfer, response: &Response) -> Answer
        requires reply { IsReplyTo transfer.now response.now }
        ensures answer { result ≡ answered_by response.now }
        ensures standing { standing self.new ≡ told (standing self.old) (answered_by response.now) };
}

/// Adapters of different kinds, by number.
pub type Adapters = Vec<Box<dyn Adapter>>;
