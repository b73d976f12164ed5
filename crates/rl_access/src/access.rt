//! What an access over the bus reaches.
ghost use Rattle.std.specs.Prelude.{◌≡◌};
ghost use Rattle.rl_access.specs.Prelude.{IsAccessOn, IsOutgoingOn, ModelData, outgoing_of};

use rl_split::Outgoing;

/// An access to a register (`uvm_reg::write` or `read`, IEEE 1800.2-2017, 18.4): its place, the bytes that take part,
/// the fields that it concerns, and the value to write, which is 0 in a read.
///
/// Bit `j` of `chosen` stands for byte `j`, bit `i` of `fields` for the register's `i`-th field.
#[derive(Clone, Copy)]
pub(crate) struct Access {
    pub(crate) reg: u32,
    pub(crate) place: u32,
    pub(crate) chosen: u8,
    pub(crate) fields: u64,
    pub(crate) value: u64,
}

impl Access {
    /// A write of it, or a read, as its words are sent.
    pub(crate) fn outgoing(&self, write: bool) -> Outgoing
        ensures outgoing { result ≡ outgoing_of self.now write }
        ensures on { (m : ModelData) → IsAccessOn m self.now → IsOutgoingOn m.layout result }
    {
        Outgoing {
            place: self.place,
            index: 0,
            chosen: self.chosen,
            value: if write { self.value } else { 0 },
            write,
        }
    }
}
