//! What a device may do otherwise than its description says.
use rl_model::Item;
use rl_policy::Policy;

/// A flaw of a device: this project's own. Where two flaws of one sort name the same field, bit or kind, the first
/// counts.
///
/// # Examples
///
/// The row with `kind = "stuck"`, `field = "ctrl.mode"`, `bit = 2` and `value = 1`, where that field is number 0:
///
/// ```text
/// Flaw::Stuck { field: 0, bit: 2, value: true }
/// ```
#[derive(Clone, Copy, Debug, PartialEq, Eq)]
pub enum Flaw {
    /// The field has this access policy.
    OtherPolicy { field: u32, policy: Policy },
    /// The field takes this value at a reset of the kind.
    OtherReset { field: u32, kind: u32, value: u64 },
    /// Bit `bit` of the field, counted from its lowest, has this value at every moment.
    Stuck { field: u32, bit: u32, value: bool },
    /// Items of the port at the addresses from `from` to `to`, both included, fail.
    ErrorRange { port: u32, from: u64, to: u64 },
    /// The item of this number fails, counted from 1 over all ports.
    ErrorNth { nth: u64 },
    /// Bus writes don't reach the register or the memory.
    Deaf { item: Item },
}
