// The device at the other end of the bus.
ghost use Rattle.std.specs.Prelude.{◌≡◌, Option, option_map, Some, ◌<◌, ◌^◌};
ghost use Rattle.rl_bus.specs.Account.{Account, Asks};
ghost use Rattle.rl_bus.specs.Account as ask;
ghost use Rattle.rl_bus.specs.State.{State, peeked, poked, reset_by, hw_set};
ghost use Rattle.rl_bus.specs.Device.{IsStep, IsPortOf, IsCellOf, IsFieldOf};
ghost use Rattle.rl_bus.specs.Wire.{carried_by, tag_of, IsWellFormed, IsReplyTo, answered_by};

use crate::{Cell, Response, Transfer};

/// A call failed, and a count of failures rose in it.
#[derive(Clone, Copy, Debug, PartialEq, Eq)]
pub struct Failed;

/// The device at the other end of the bus: its bus ports, and a backdoor.
///
/// A device may report its state. Then each call is the step of the device model, which is this
/// project's own. A device that reports nothing may answer anything, but a failed answer still comes
/// only where its count of errors rose.
///
/// A device that reaches a peer, as over a link, may tell its talk: then each call sends the request that belongs to it, and
/// takes the answer to that request.
pub trait Device {
    /// The state, where the device reports it.
    ghost state: { Self → Option State };

    /// How often it has failed, which never falls, and its talk with a peer, if it has one.
    ghost account: { Self → Account };

    /// The response of a port to a transfer.
    fn transfer(&mut self, port: u32, transfer: &Transfer) -> Response
        requires well_formed { IsWellFormed transfer.now }
        requires port { IsPortOf (state self.old) port }
        ensures reply { IsReplyTo transfer.now result }
        ensures small { (answered_by result).word < 256 ^ (carried_by transfer.now).bytes }
        ensures asked { Asks (account self.old) (account self.new)
            (ask.transfer port (carried_by transfer.now) (tag_of transfer.now) (answered_by result)) }
        ensures step { IsStep (state self.old) (state self.new) port (carried_by transfer.now) (answered_by result) };

    /// The stored bits of a register or a location, read by the backdoor: `uvm_reg::peek` (IEEE 1800.2-2017, 18.4) and
    /// `uvm_mem::peek` (18.6) come down to it.
    fn peek(&self, cell: Cell) -> u64
        requires cell { IsCellOf (state self.now) cell }
        ensures step { (s : State) → state self.now ≡ Some s → result ≡ peeked s cell };

    /// Deposits bits into a register or a location by the backdoor: `uvm_reg::poke` (IEEE 1800.2-2017, 18.4) and
    /// `uvm_mem::poke` (18.6) come down to it.
    fn poke(&mut self, cell: Cell, value: u64)
        requires cell { IsCellOf (state self.old) cell }
        ensures step { state self.new ≡ option_map (λ s. poked s cell value) (state self.old) }
        ensures asked { Asks (account self.old) (account self.new) (ask.poke cell value) };

    /// A reset of a kind. Kind 0 is HARD.
    fn reset(&mut self, kind: u32)
        ensures step { state self.new ≡ option_map (λ s. reset_by s kind) (state self.old) }
        ensures asked { Asks (account self.old) (account self.new) (ask.reset kind) };

    /// A change of a volatile field by the hardware itself: this project's own.
    fn hw(&mut self, field: u32, value: u64)
        requires field { IsFieldOf (state self.old) field }
        ensures step { state self.new ≡ option_map (λ s. hw_set s field value) (state self.old) }
        ensures asked { Asks (account self.old) (account self.new) (ask.hw field value) };
}
