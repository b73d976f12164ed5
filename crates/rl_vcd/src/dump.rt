// The dump of a session's events, and what is kept back of its text.
ghost use Rattle.std.specs.Prelude.{◌≡◌, ◌++◌, ◌≤◌, ◌<◌, ◌-◌, ◌^◌, Ok, Err, None, Some, IsNone, IsSome, true};
ghost use Rattle.std.specs.Prelude.{IfErr, IfOk, OnOk, OnErr, All};
ghost use Rattle.std.specs.Io.KnownBytes.{Appends, Keeps, append_known};
ghost use Rattle.rl_bus.specs.Causes.{Rose};
ghost use Rattle.rl_access.specs.Event.{EventFits, ItemFits};
ghost use Rattle.rl_report.specs.Event.{event_line};
ghost use Rattle.rl_report.specs.Lines.{first_line};
ghost use Rattle.rl_report.specs.Pieces.{AppendsFront};
ghost use Rattle.rl_vcd.specs.Drawn.{RunsOut};
ghost use Rattle.rl_vcd.specs.Dump.{header_text};
ghost use Rattle.rl_vcd.specs.Items.{is_apb, item_text, cycle_behind, items_text, cycle_after, buses_of};
ghost use Rattle.rl_vcd.specs.Label.{label_of};
ghost use Rattle.rl_vcd.specs.Told.{told};

use crate::header::NamedBus;
use crate::item::{bus_of, is_apb, response_of, transfer_of};
use crate::label::Label;
use crate::wave::{DrawFault, Wave};
use rl_access::{Event, Model, TraceItem};
use rl_map::Layout;
use rl_report::{Failed, Sink, put_all};
use std::alloc::{AllocError, Global};

// So much text is kept back before it is written.
const ROOM: usize = 32768;

/// Why a dump ended early.
#[derive(Clone, Copy, Debug, PartialEq, Eq)]
pub enum Fault {
    /// It couldn't be written.
    Sink,
    /// It has all clock cycles that can be counted.
    Full,
    /// Memory was wanting.
    Memory,
}

impl From<DrawFault> for Fault {
    ghost use Rattle.std.specs.Prelude.{◌≡◌};
    ghost use Rattle.rl_vcd.specs.Told.{fault_of};

    ghost from_gives = { λ cause fault. fault ≡ fault_of cause };

    fn from(fault: DrawFault) -> Fault {
        match fault {
            DrawFault::Full => Fault::Full,
            DrawFault::Memory => Fault::Memory,
        }
    }
}

/// A dump behind a sink. Once something went wrong, nothing is written any more.
#[derive(Drop)]
pub struct Dump<K: Sink> {
    /// Where the dump goes.
    pub sink: K,
    /// The text that is kept back, and the number of the next clock cycle.
    pub wave: Wave,
    /// The operation of the last event.
    pub label: Label,
    /// Why it ended early, where it did.
    pub fault: Option<Fault>,
}

// The buses of a layout whose transfers are drawn.
fn buses_of(alloc: Global, layout: &Layout) -> Result<Vec<NamedBus<'_>>, AllocError>
    ensures buses { IfOk result (λ buses. buses.items ≡ buses_of layout.now) }
    ensures narrow { IfOk result (λ buses. All (λ b. b.bus.bytes ≤ 4) buses.items) }
{
    let mut buses = Vec::new(alloc);
    for port in 0..layout.ports() {
        if is_apb(layout, port) {
            let name = layout.map_name(layout.port_map(port));
            let bus = bus_of(layout, port);
            buses.push(NamedBus { name, bus })?;
        }
    }
    Ok(buses)
}

// Draws an item, if it went through the APB adapter.
fn draw_item(
    wave: &mut Wave,
    label: &[u8],
    layout: &Layout,
    item: &TraceItem,
) -> Result<(), DrawFault>
    requires { ItemFits layout.now item.now }
    ensures drawn { OnOk result (wave.new.text.items
        ≡ wave.old.text.items ++ item_text layout.now label.now item.now wave.old.cycle) }
    ensures cycle { OnOk result (wave.new.cycle ≡ cycle_behind layout.now item.now wave.old.cycle) }
    ensures full { result ≡ Err DrawFault.Full
        → (is_apb layout.now item.now.port ≡ true) × (2 ^ 64 - 1024 < wave.old.cycle) }
{
    if !is_apb(layout, item.port) {
        return Ok(());
    }
    let bus = bus_of(layout, item.port);
    wave.draw(bus, label, &transfer_of(item), &response_of(item))
}

// Draws the items of an event.
fn draw_items(
    wave: &mut Wave,
    label: &[u8],
    layout: &Layout,
    event: &Event,
) -> Result<(), DrawFault>
    requires { All (ItemFits layout.now) event.now.trace }
    ensures drawn { OnOk result (wave.new.text.items
        ≡ wave.old.text.items ++ items_text layout.now label.now event.now.trace wave.old.cycle) }
    ensures cycle { OnOk result (wave.new.cycle ≡ cycle_after layout.now event.now.trace wave.old.cycle) }
    ensures full { result ≡ Err DrawFault.Full → RunsOut layout.now event.now.trace wave.old.cycle }
{
    for k in 0..event.trace.len() {
        draw_item(wave, label, layout, &event.trace.item(k))?;
    }
    Ok(())
}

// What a dump over this layout begins with.
fn first_wave(alloc: Global, layout: &Layout) -> Result<Wave, AllocError>
    ensures header { IfOk result (λ wave. wave.text.items ≡ header_text (buses_of layout.now)) }
    ensures first { IfOk result (λ wave. wave.cycle ≡ 1) }
{
    let buses = buses_of(alloc, layout)?;
    Wave::build(alloc, &buses)
}

impl<K: Sink> Dump<K> {
    /// The dump of a session over this layout, with no event yet.
    ///
    /// # Errors
    ///
    /// Want of memory: the sink comes back, and nothing was written.
    pub fn build(alloc: Global, layout: &Layout, sink: K) -> Result<Dump<K>, K>
        ensures sink { IfOk result (λ dump. dump.sink ≡ sink) }
        ensures header { IfOk result (λ dump. dump.wave.text.items ≡ header_text (buses_of layout.now)) }
        ensures first { IfOk result (λ dump. dump.wave.cycle ≡ 1) }
        ensures sound { IfOk result (λ dump. dump.fault ≡ None) }
        ensures back { IfErr result (λ back. back ≡ sink) }
    {
        match first_wave(alloc, layout) {
            Ok(wave) => Ok(Dump {
                sink,
                wave,
                label: Label::new(),
                fault: None,
            }),
            Err(AllocError) => Err(sink),
        }
    }
}

impl<K: Sink> Dump<K> {
    // Writes the text that is kept back.
    fn write_out(&mut self) -> Result<(), Fault>
        ensures told { OnOk result (Keeps (told K.written self.old) (told K.written self.new)) }
        ensures whole { OnOk result (Keeps (told K.written self.old) (K.written self.new.sink)) }
        ensures front { AppendsFront (K.written self.old.sink) (K.written self.new.sink) self.old.wave.text.items }
        ensures cycle { self.new.wave.cycle ≡ self.old.wave.cycle }
        ensures fault { self.new.fault ≡ self.old.fault }
        ensures only { OnErr result (result ≡ Err Fault.Sink) }
        ensures cause { result ≡ Err Fault.Sink → Rose (K.faults self.old.sink) (K.faults self.new.sink) }
        ensures later { K.faults self.old.sink ≤ K.faults self.new.sink }
        ensures ends_kept { K.ends self.new.sink ≡ K.ends self.old.sink }
    {
        if put_all(&mut self.sink, &self.wave.text).is_err() {
            return Err(Fault::Sink);
        }
        self.wave.text.clear();
        Ok(())
    }

    #[tactic(auto, using(crate::proofs::DumpLemmas::told_more))]
    fn try_note(&mut self, model: &Model, event: &Event) -> Result<(), Fault>
        requires { EventFits model.now event.now }
        ensures drawn { OnOk result (Appends (told K.written self.old) (told K.written self.new)
            (items_text model.now.layout (label_of (event_line model.now event.now)) event.now.trace
            self.old.wave.cycle)) }
        ensures cycle { OnOk result
            (self.new.wave.cycle ≡ cycle_after model.now.layout event.now.trace self.old.wave.cycle) }
        ensures front { AppendsFront (K.written self.old.sink) (K.written self.new.sink) (self.old.wave.text.items
            ++ items_text model.now.layout (label_of (event_line model.now event.now)) event.now.trace
            self.old.wave.cycle) }
        ensures fault { self.new.fault ≡ self.old.fault }
        ensures cause { result ≡ Err Fault.Sink → Rose (K.faults self.old.sink) (K.faults self.new.sink) }
        ensures full { result ≡ Err Fault.Full
            → RunsOut model.now.layout event.now.trace self.old.wave.cycle }
        ensures later { K.faults self.old.sink ≤ K.faults self.new.sink }
        ensures ends_kept { K.ends self.new.sink ≡ K.ends self.old.sink }
    {
        self.label.take_event(model, event);
        draw_items(&mut self.wave, self.label.line(), model.layout(), event)?;
        if self.wave.text.len() < ROOM {
            return Ok(());
        }
        self.write_out()
    }

    /// Draws the items of an event: each transfer with the event's line beside it.
    #[tactic(auto, using(crate::proofs::DumpLemmas::none_drawn, crate::proofs::DumpLemmas::no_cycle))]
    pub fn note(&mut self, model: &Model, event: &Event)
        requires { EventFits model.now event.now }

        // As long as nothing went wrong, the items are drawn from the next clock cycle on.
        ensures drawn { IsNone self.new.fault → Appends (told K.written self.old) (told K.written self.new)
            (items_text model.now.layout (label_of (event_line model.now event.now)) event.now.trace
            self.old.wave.cycle) }
        ensures cycle { IsNone self.new.fault
            → self.new.wave.cycle ≡ cycle_after model.now.layout event.now.trace self.old.wave.cycle }

        // Whatever went wrong, a front was written of what was kept back and of this.
        ensures front { AppendsFront (K.written self.old.sink) (K.written self.new.sink) (self.old.wave.text.items
            ++ items_text model.now.layout (label_of (event_line model.now event.now)) event.now.trace
            self.old.wave.cycle) }

        // Once something did, nothing is done any more. It is no fault of the sink's where this hasn't failed, and the
        // dump is full only where no further clock cycle can be counted.
        ensures silent { IsSome self.old.fault → self.new ≡ self.old }
        ensures cause { IsNone self.old.fault → self.new.fault ≡ Some Fault.Sink
            → Rose (K.faults self.old.sink) (K.faults self.new.sink) }
        ensures full { IsNone self.old.fault → self.new.fault ≡ Some Fault.Full
            → RunsOut model.now.layout event.now.trace self.old.wave.cycle }
        ensures later { K.faults self.old.sink ≤ K.faults self.new.sink }
        ensures ends_kept { K.ends self.new.sink ≡ K.ends self.old.sink }
    {
        if self.fault.is_some() || event.trace.len() == 0 {
            return;
        }
        if let Err(fault) = self.try_note(model, event) {
            self.fault = Some(fault);
        }
    }

    fn try_close(&mut self) -> Result<(), Fault>
        ensures whole { OnOk result (Keeps (told K.written self.old) (K.written self.new.sink)) }
        ensures front { AppendsFront (K.written self.old.sink) (K.written self.new.sink) self.old.wave.text.items }
        ensures ended { OnOk result (Rose (K.ends self.old.sink) (K.ends self.new.sink)) }
        ensures fault { self.new.fault ≡ self.old.fault }
        ensures only { OnErr result (result ≡ Err Fault.Sink) }
        ensures cause { result ≡ Err Fault.Sink → Rose (K.faults self.old.sink) (K.faults self.new.sink) }
        ensures later { K.faults self.old.sink ≤ K.faults self.new.sink }
    {
        self.write_out()?;
        match self.sink.finish() {
            Ok(()) => Ok(()),
            Err(Failed) => Err(Fault::Sink),
        }
    }

    /// Writes what is kept back, and ends the sink.
    pub fn close(&mut self)
        ensures whole { IsNone self.new.fault → Keeps (told K.written self.old) (K.written self.new.sink) }
        ensures ended { IsNone self.new.fault → Rose (K.ends self.old.sink) (K.ends self.new.sink) }

        // A front of what was kept back is written in any case, and only the sink can fail.
        ensures front { AppendsFront (K.written self.old.sink) (K.written self.new.sink) self.old.wave.text.items }
        ensures silent { IsSome self.old.fault → self.new ≡ self.old }
        ensures only { IsNone self.old.fault → IsSome self.new.fault → self.new.fault ≡ Some Fault.Sink }
        ensures cause { IsNone self.old.fault → self.new.fault ≡ Some Fault.Sink
            → Rose (K.faults self.old.sink) (K.faults self.new.sink) }
        ensures later { K.faults self.old.sink ≤ K.faults self.new.sink }
    {
        if self.fault.is_some() {
            return;
        }
        if let Err(fault) = self.try_close() {
            self.fault = Some(fault);
        }
    }
}
