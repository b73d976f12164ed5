// The trail of an adapter: a number that takes each operation and each answer.
ghost use Rattle.std.specs.Prelude.{◌≡◌};
ghost use Rattle.rl_bus.specs.Standing.{taken, op_taken, answer_taken};

use crate::{Answer, BusOp};

/// The trail after an operation went out: it takes 1 for a write or 0 for a read, the address, the
/// word, the lanes and the bytes. Each implementation of `Adapter` keeps its trail by this.
#[tactic(auto, unfolding(crate::specs::Standing::op_taken))]
pub fn trail_of_operation(trail: u64, op: &BusOp) -> u64
    ensures { result ≡ op_taken trail op.now }
{
    let written = taking(trail, u64::from(op.write));
    let addressed = taking(written, op.address);
    let worded = taking(addressed, op.word);
    let laned = taking(worded, u64::from(op.lanes));
    taking(laned, u64::from(op.bytes))
}

/// The trail after an answer came in: it takes the word, and then 1 for a failed answer or 0.
#[tactic(auto, unfolding(crate::specs::Standing::answer_taken))]
pub fn trail_of_answer(trail: u64, answer: &Answer) -> u64
    ensures { result ≡ answer_taken trail answer.now }
{
    taking(taking(trail, answer.word), u64::from(answer.failed))
}

fn taking(trail: u64, x: u64) -> u64
    ensures { result ≡ taken trail x }
{
    trail.wrapping_mul(31).wrapping_add(x)
}
