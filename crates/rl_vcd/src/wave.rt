// The text of a dump.
ghost use Rattle.std.specs.Prelude.{◌≡◌, ◌≤◌, ◌<◌, ◌+◌, ◌-◌, ◌^◌, ◌++◌, ◌∷◌, [], Err};
ghost use Rattle.std.specs.Prelude.{IfOk, OnOk, OnErr, All, flat_map};
ghost use Rattle.rl_vcd.specs.Signals.{binary, joined};
ghost use Rattle.rl_vcd.specs.Pins.{idle, pins_at, changes};
ghost use Rattle.rl_vcd.specs.Dump.{time_text, opening_text, closing_text, cycle_text, label_text, access_text};
ghost use Rattle.rl_vcd.specs.Dump.{transfer_text, header_text};

use crate::header::{NamedBus, push_header};
use crate::pins::{Bus, IDLE, pins_at, push_changes};
use crate::text::{push, push_binary, push_decimal};
use rl_apb::Pins;
use rl_bus::{ApbResponse, ApbTransfer};
use std::alloc::{AllocError, Global};

// No transfer begins in this cycle or a later one, so that its cycles can be counted.
const LAST: u64 = u64::MAX - 1023;

/// Why a transfer wasn't drawn.
#[derive(Clone, Copy, Debug, PartialEq, Eq)]
pub enum DrawFault {
    /// There have been 2^64 - 1024 clock cycles.
    Full,
    /// Memory was wanting.
    Memory,
}

impl From<AllocError> for DrawFault {
    ghost use Rattle.std.specs.Prelude.{◌≡◌};
    ghost use Rattle.rl_vcd.specs.declared.wave.DrawFault.{DrawFault};

    ghost from_gives = { λ _ fault. fault ≡ DrawFault.Memory };

    fn from(_: AllocError) -> DrawFault {
        DrawFault::Memory
    }
}

// Appends a time in a clock cycle, whose last digit is the first of `rest`, and what is written behind it.
#[tactic(auto, using(crate::proofs::TextLemmas::more, crate::proofs::TextLemmas::last))]
fn push_time(text: &mut Vec<u8>, n: u64, rest: &[u8]) -> Result<(), AllocError>
    ensures { OnOk result (text.new.items ≡ text.old.items ++ time_text n rest.now) }
{
    push(text, b"#")?;
    push_decimal(text, n)?;
    push(text, rest)?;
    Ok(())
}

// Appends a clock cycle before its changes.
#[tactic(auto, using(crate::proofs::TextLemmas::more, crate::proofs::TextLemmas::last))]
fn open_cycle(text: &mut Vec<u8>, n: u64) -> Result<(), AllocError>
    ensures { OnOk result (text.new.items ≡ text.old.items ++ opening_text n) }
{
    push_time(text, n, b"0\n1c\n")?;
    push_time(text, n, b"1\n")?;
    Ok(())
}

// Appends the end of a clock cycle.
fn close_cycle(text: &mut Vec<u8>, n: u64) -> Result<(), AllocError>
    ensures { OnOk result (text.new.items ≡ text.old.items ++ closing_text n) }
{
    push_time(text, n, b"5\n0c\n")
}

// Appends a clock cycle in which the pins change so.
#[tactic(auto, using(crate::proofs::TextLemmas::more, crate::proofs::TextLemmas::last))]
fn push_cycle(
    text: &mut Vec<u8>,
    n: u64,
    bus: Bus,
    before: &Pins,
    after: &Pins,
) -> Result<(), AllocError>
    requires { bus.bytes ≤ 4 }
    ensures { OnOk result (text.new.items ≡ text.old.items ++ cycle_text n (changes bus before.now after.now)) }
{
    open_cycle(text, n)?;
    push_changes(text, bus, before, after)?;
    close_cycle(text, n)?;
    Ok(())
}

// Appends the characters of an operation.
fn push_characters(text: &mut Vec<u8>, label: &[u8]) -> Result<(), AllocError>
    ensures { OnOk result (text.new.items ≡ text.old.items ++ flat_map (binary 8) label.now) }
{
    for k in 0..label.len() {
        push_binary(text, 8, u32::from(label[k]))?;
    }
    Ok(())
}

// Appends the operation beside the pins.
#[tactic(auto, using(crate::proofs::TextLemmas::more, crate::proofs::TextLemmas::last))]
fn push_label(text: &mut Vec<u8>, label: &[u8]) -> Result<(), AllocError>
    ensures { OnOk result (text.new.items ≡ text.old.items ++ label_text label.now) }
{
    push(text, b"b0")?;
    push_characters(text, label)?;
    push(text, b" o\n")?;
    Ok(())
}

// A transfer as it is drawn: on this bus, with this operation beside it.
#[derive(Clone, Copy)]
struct Drawn<'a> {
    bus: Bus,
    label: &'a [u8],
    transfer: &'a ApbTransfer,
    response: &'a ApbResponse,
}

impl<'a> Drawn<'a> {
    // Appends the setup phase, in which the operation appears.
    #[tactic(auto, using(crate::proofs::TextLemmas::more, crate::proofs::TextLemmas::last))]
    fn push_setup(&self, text: &mut Vec<u8>, n: u64, setup: &Pins) -> Result<(), AllocError>
        requires { self.now.bus.bytes ≤ 4 }
        ensures { OnOk result (text.new.items ≡ text.old.items
            ++ cycle_text n (joined (label_text self.now.label.now ∷ changes self.now.bus idle setup.now ∷ []))) }
    {
        open_cycle(text, n)?;
        push_label(text, self.label)?;
        push_changes(text, self.bus, &IDLE, setup)?;
        close_cycle(text, n)?;
        Ok(())
    }

    // Appends the access phase.
    fn push_access(&self, text: &mut Vec<u8>, n: u64) -> Result<(), AllocError>
        requires narrow { self.now.bus.bytes ≤ 4 }
        requires early { n ≤ 2 ^ 64 - 1024 }
        ensures { OnOk result (text.new.items ≡ text.old.items
            ++ access_text self.now.bus self.now.transfer.now self.now.response.now n
            (self.now.response.now.waits + 1)) }
    {
        for k in 0..self.response.waits as u32 + 1 {
            let before = pins_at(self.transfer, self.response, k);
            let after = pins_at(self.transfer, self.response, k + 1);
            push_cycle(text, n + k as u64 + 1, self.bus, &before, &after)?;
        }
        Ok(())
    }

    // Appends the idle cycle behind a transfer, in which its operation disappears.
    #[tactic(auto, using(crate::proofs::TextLemmas::more, crate::proofs::TextLemmas::last))]
    fn push_end(&self, text: &mut Vec<u8>, n: u64, last: &Pins) -> Result<(), AllocError>
        requires { self.now.bus.bytes ≤ 4 }
        ensures { OnOk result (text.new.items ≡ text.old.items
            ++ cycle_text n (joined (changes self.now.bus last.now idle ∷ label_text [] ∷ []))) }
    {
        open_cycle(text, n)?;
        push_changes(text, self.bus, last, &IDLE)?;
        push_label(text, &[])?;
        close_cycle(text, n)?;
        Ok(())
    }

    // Appends a transfer that begins in cycle `n`.
    fn push(&self, text: &mut Vec<u8>, n: u64) -> Result<(), AllocError>
        requires narrow { self.now.bus.bytes ≤ 4 }
        requires early { n ≤ 2 ^ 64 - 1024 }
        ensures { OnOk result (text.new.items ≡ text.old.items
            ++ transfer_text self.now.bus self.now.label.now self.now.transfer.now self.now.response.now n) }
    {
        let waits = self.response.waits as u32;
        self.push_setup(text, n, &pins_at(self.transfer, self.response, 0))?;
        self.push_access(text, n)?;
        self.push_end(
            text,
            n + waits as u64 + 2,
            &pins_at(self.transfer, self.response, waits + 1),
        )?;
        Ok(())
    }
}

/// The text of a dump as far as it isn't written elsewhere, and the number of the next clock cycle.
///
/// A clock cycle `n` is 10 ns long: PCLK rises at 10 n ns, the pins change 1 ns later, and PCLK falls at 10 n + 5 ns.
/// Cycles are counted from 1. What a rising edge samples holds since the edge before.
#[derive(Drop)]
pub struct Wave {
    /// The text that isn't written elsewhere yet.
    pub text: Vec<u8>,
    /// The number of the next clock cycle.
    pub cycle: u64,
}

impl Wave {
    /// A dump of these buses, with no transfer yet.
    pub fn build(alloc: Global, buses: &[NamedBus<'_>]) -> Result<Wave, AllocError>
        requires narrow { All (λ b. b.bus.bytes ≤ 4) buses.now }
        ensures header { IfOk result (λ wave. wave.text.items ≡ header_text buses.now) }
        ensures first { IfOk result (λ wave. wave.cycle ≡ 1) }
    {
        let mut text = Vec::new(alloc);
        push_header(&mut text, buses)?;
        Ok(Wave { text, cycle: 1 })
    }

    /// Draws a transfer and an idle cycle after it. The label is in the signal `op` from the setup phase to the
    /// end of the transfer.
    ///
    /// # Examples
    ///
    /// A transfer without wait cycles takes a setup cycle, an access cycle and an idle cycle. Here one begins in
    /// cycle n.
    ///
    /// ```text
    /// // In cycle n PSEL rises at 10 n + 1 ns, PENABLE 10 ns later, and both fall 10 ns after that.
    /// wave.draw(bus, b"write ctrl 0x3 @bus: ok mirror 0x03", &transfer, &response)?;
    /// // The next transfer's setup cycle is n + 3.
    /// ```
    pub fn draw(
        &mut self,
        bus: Bus,
        label: &[u8],
        transfer: &ApbTransfer,
        response: &ApbResponse,
    ) -> Result<(), DrawFault>
        requires narrow { bus.bytes ≤ 4 }
        ensures drawn { OnOk result (self.new.text.items
            ≡ self.old.text.items ++ transfer_text bus label.now transfer.now response.now self.old.cycle) }
        ensures cycle { OnOk result (self.new.cycle ≡ self.old.cycle + response.now.waits + 3) }
        ensures full { result ≡ Err DrawFault.Full → 2 ^ 64 - 1024 < self.old.cycle }
        ensures kept { OnErr result (self.new.cycle ≡ self.old.cycle) }
    {
        if self.cycle > LAST {
            return Err(DrawFault::Full);
        }
        let drawn = Drawn {
            bus,
            label,
            transfer,
            response,
        };
        drawn.push(&mut self.text, self.cycle)?;
        self.cycle += response.waits as u64 + 3;
        Ok(())
    }
}
