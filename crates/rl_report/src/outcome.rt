// The text of what came of an operation.
ghost use Rattle.std.specs.Prelude.{◌≡◌, ◌+◌, ◌*◌, ◌^◌, ◌<◌, ◌≤◌, [], ◌∷◌, ◌++◌, false, length, ◌&&◌, IfSome};
ghost use Rattle.rl_policy.specs.Bits.{bit};
ghost use Rattle.rl_model.specs.Chip.{HasItem, IsSound};
ghost use Rattle.rl_model.specs.Fields.{field_of, first_of, count_of, size_of};
ghost use Rattle.rl_access.specs.Event.{EventFits};
ghost use Rattle.rl_access.specs.Operation.{HasNumbers, register_of, field_digits, digits_of};
ghost use Rattle.rl_report.specs.Outcome as spec;
ghost use Rattle.rl_report.specs.Numbers.{padded};
ghost use Rattle.rl_report.specs.Pieces.{GathersTo, SinkStays, joined};

use crate::operation::{Subject, name_of, register_with, subject_of};
use crate::pieces::{gather, make_room};
use crate::telling::Telling;
use crate::text::Text;
use crate::{Failed, Sink};
use itoa::Buffer;
use rl_access::{End, Event, Model, Op, Refused};
use rl_model::Item;

fn why_text(why: Refused) -> &'static [u8]
    ensures value { result.now ≡ spec.why_text why }
    ensures short { length result.now ≤ 16 }
{
    match why {
        Refused::NotPlaced => b"not placed",
        Refused::NotObserved => b"not observed",
        Refused::NoRight => b"no right",
        Refused::NoBackdoor => b"no backdoor",
        Refused::NotVolatile => b"not volatile",
        Refused::NotWritable => b"not writable",
        Refused::OutOfRange => b"out of range",
        Refused::TooWide => b"too wide",
    }
}

// The register that an operation concerns: none where it concerns a memory or all registers.
#[tactic(auto, using(crate::proofs::OperationLemmas::register_by_subject))]
fn register_of(model: &Model, op: Op) -> Option<u32>
    requires { HasNumbers model.now.chip (length model.now.layout.maps) op }
    ensures value { result ≡ register_of model.now.chip op }
    ensures in_range { IfSome result (λ reg. reg < length model.now.chip.regs) }
{
    match subject_of(op)? {
        Subject::Reg(reg) => Some(reg),
        Subject::Field(field) => Some(register_with(model, field)),
        Subject::Mem(_) => None,
    }
}

// The digits of the value of a register or a location.
fn item_digits(model: &Model, item: Item) -> u32
    requires { HasItem model.now.chip item }
    ensures value { result ≡ 2 * spec.item_size model.now.chip item }
    ensures some { 1 ≤ result }
    ensures few { result ≤ 16 }
{
    2 * model.chip().bytes(item)
}

// The digits of a field's value.
fn field_digits(model: &Model, field: u32) -> u32
    requires { field < length model.now.chip.fields }
    ensures value { result ≡ field_digits (field_of model.now.chip field).shape.width }
    ensures some { 1 ≤ result }
    ensures few { result ≤ 16 }
{
    model.chip().field(field).width.div_ceil(4)
}

// The digits of a value that an operation reads or sends.
#[tactic(auto, using(crate::proofs::OperationLemmas::digits_by_subject))]
fn digits_of(model: &Model, op: Op) -> u32
    requires numbers { HasNumbers model.now.chip (length model.now.layout.maps) op }
    requires ends { spec.is_reset op ≡ false }
    ensures value { result ≡ digits_of model.now.chip op }
    ensures some { 1 ≤ result }
    ensures few { result ≤ 16 }
{
    if let Op::FieldRead { field, .. } = op {
        return field_digits(model, field);
    }
    match subject_of(op) {
        Some(Subject::Reg(reg)) => item_digits(model, Item::Reg(reg)),
        Some(Subject::Field(field)) => item_digits(model, Item::Reg(register_with(model, field))),
        Some(Subject::Mem(mem)) => item_digits(model, Item::Mem(mem)),
        None => unreachable!(),
    }
}

// Appends a piece, and a value in so many hexadecimal digits.
#[inline(always)]
fn push_value(text: &mut Text, before: &[u8], value: u64, count: u32)
    requires short { length before.now ≤ 16 }
    requires some { 1 ≤ count }
    requires few { count ≤ 16 }
    requires fits { value < 16 ^ count }
    requires room { length text.old + 32 ≤ 512 }
    ensures text { text.new ≡ text.old ++ joined (before.now ∷ padded count value ∷ []) }
    ensures len { length text.new ≤ length text.old + 32 }
{
    text.push(before);
    text.push_padded(value, count);
}

// The desired value is told.
fn shows_desired(op: Op, end: End) -> bool
    ensures { result ≡ (spec.is_show op && spec.is_done end) }
{
    matches!(op, Op::Set { .. } | Op::Show { .. }) && matches!(end, End::Done)
}

// The operation compares.
fn is_check(op: Op) -> bool
    ensures { result ≡ spec.is_check op }
{
    matches!(
        op,
        Op::Check { .. } | Op::BackCheck { .. } | Op::MemCheck { .. }
    )
}

// A comparison found something.
fn has_differ(event: &Event) -> bool
    ensures { result ≡ spec.has_differ event.now }
{
    is_check(event.op) && event.differ != 0
}

// The bit of a differing field is set.
fn has_mark(differ: u64, place: u32) -> bool
    requires { place < 64 }
    ensures { result ≡ bit differ place }
{
    differ >> place & 1 == 1
}

// Gathers the name of a register's field, where it differs.
fn put_name<K: Sink>(
    sink: &mut K,
    text: &mut Text,
    model: &Model,
    reg: u32,
    differ: u64,
    place: u32,
) -> Result<(), Failed>
    requires reg { reg < length model.now.chip.regs }
    requires place { place < count_of model.now.chip reg }
    ensures bytes { GathersTo K.Sink sink.old sink.new text.old text.new
        (spec.name_text model.now.chip reg differ place) result }
    ensures stays { SinkStays K.Sink sink.old sink.new result }
{
    let (first, _) = fields_with(model, reg);
    if !has_mark(differ, place) {
        return Ok(());
    }
    gather(sink, text, b" ")?;
    gather(sink, text, name_of(model, first + place))
}

// Gathers the names of the differing fields of a register.
fn put_names<K: Sink>(
    sink: &mut K,
    text: &mut Text,
    model: &Model,
    reg: u32,
    differ: u64,
) -> Result<(), Failed>
    requires reg { reg < length model.now.chip.regs }
    ensures bytes { GathersTo K.Sink sink.old sink.new text.old text.new
        (spec.names_text model.now.chip reg differ) result }
    ensures stays { SinkStays K.Sink sink.old sink.new result }
{
    let (_, count) = fields_with(model, reg);
    for place in 0..count {
        put_name(sink, text, model, reg, differ, place)?;
    }
    Ok(())
}

// The first of a register's fields, and how many they are.
fn fields_with(model: &Model, reg: u32) -> (u32, u32)
    requires { reg < length model.now.chip.regs }
    ensures first { result.0 ≡ first_of model.now.chip reg }
    ensures count { result.1 ≡ count_of model.now.chip reg }
    ensures within { result.0 + result.1 ≤ length model.now.chip.fields }
    ensures few { result.1 ≤ 64 }
    ensures bound { result.0 + result.1 < 2 ^ 32 }
    ensures sound { IsSound model.now.chip }
{
    let chip = model.chip();
    (chip.first_field(reg), chip.field_count(reg))
}

fn is_refused(end: End) -> bool
    ensures { result ≡ spec.is_refused end }
{
    matches!(end, End::Refused { .. })
}

impl<'a> Telling<'a> {
    // Appends how an operation ended.
    #[inline]
    fn push_end(&self, text: &mut Text)
        requires fits { EventFits self.now.model.now self.now.event.now }
        requires room { length text.old + 40 ≤ 512 }
        ensures text { text.new ≡ text.old
            ++ spec.end_text (digits_of self.now.model.now.chip self.now.event.now.op) self.now.event.now.end }
        ensures len { length text.new ≤ length text.old + 40 }
    {
        match self.event.end {
            End::Done => text.push(b": ok"),
            End::Value { value } => push_value(
                text,
                b": ok 0x",
                value,
                digits_of(self.model, self.event.op),
            ),
            End::Sent { word } => push_value(
                text,
                b": ok sent 0x",
                word,
                digits_of(self.model, self.event.op),
            ),
            End::Nothing => text.push(b": ok none"),
            End::BusError { word } => {
                let mut buffer = Buffer::new();
                text.push(b": bus error at word ");
                text.push(buffer.format(word).as_bytes());
            }
            End::Refused { why } => {
                text.push(b": refused ");
                text.push(why_text(why));
            }
        }
    }

    // Gathers which fields of a register differ, if any.
    fn put_differ<K: Sink>(&self, sink: &mut K, text: &mut Text, reg: u32) -> Result<(), Failed>
        requires reg { reg < length self.now.model.now.chip.regs }
        ensures bytes { GathersTo K.Sink sink.old sink.new text.old text.new
            (spec.differ_text self.now.model.now.chip self.now.event.now reg) result }
        ensures stays { SinkStays K.Sink sink.old sink.new result }
    {
        if !has_differ(self.event) {
            return Ok(());
        }
        gather(sink, text, b" differ")?;
        put_names(sink, text, self.model, reg, self.event.differ)
    }

    // Appends the desired value, where the operation shows it.
    fn push_desired(&self, text: &mut Text, reg: u32)
        requires reg { reg < length self.now.model.now.chip.regs }
        requires desired { self.now.event.now.desired < 16 ^ (2 * size_of self.now.model.now.chip reg) }
        requires room { length text.old + 32 ≤ 512 }
        ensures text { text.new ≡ text.old ++ spec.desired_text self.now.model.now.chip self.now.event.now reg }
        ensures len { length text.new ≤ length text.old + 32 }
    {
        if !shows_desired(self.event.op, self.event.end) {
            return;
        }
        let digits = item_digits(self.model, Item::Reg(reg));
        push_value(text, b" desired 0x", self.event.desired, digits);
    }

    // Gathers what is believed of the register of an event.
    fn put_register<K: Sink>(&self, sink: &mut K, text: &mut Text, reg: u32) -> Result<(), Failed>
        requires reg { reg < length self.now.model.now.chip.regs }
        requires room { length text.old + 64 ≤ 512 }
        requires mirrored { self.now.event.now.mirrored < 16 ^ (2 * size_of self.now.model.now.chip reg) }
        requires desired { self.now.event.now.desired < 16 ^ (2 * size_of self.now.model.now.chip reg) }
        ensures bytes { GathersTo K.Sink sink.old sink.new text.old text.new
            (spec.after_text self.now.model.now.chip self.now.event.now (Some reg)) result }
        ensures stays { SinkStays K.Sink sink.old sink.new result }
    {
        let digits = item_digits(self.model, Item::Reg(reg));
        self.push_desired(text, reg);
        push_value(text, b" mirror 0x", self.event.mirrored, digits);
        self.put_differ(sink, text, reg)
    }

    // Gathers what is known after an operation: nothing where that is refused.
    fn put_rest<K: Sink>(&self, sink: &mut K, text: &mut Text) -> Result<(), Failed>
        requires room { length text.old + 64 ≤ 512 }
        requires fits { EventFits self.now.model.now self.now.event.now }
        ensures bytes { GathersTo K.Sink sink.old sink.new text.old text.new
            (spec.rest_text self.now.model.now.chip self.now.event.now) result }
        ensures stays { SinkStays K.Sink sink.old sink.new result }
    {
        if is_refused(self.event.end) {
            return Ok(());
        }
        match register_of(self.model, self.event.op) {
            Some(reg) => self.put_register(sink, text, reg),
            None if has_differ(self.event) => gather(sink, text, b" differ"),
            None => Ok(()),
        }
    }

    // Gathers what came of an operation.
    pub(crate) fn put_result<K: Sink>(&self, sink: &mut K, text: &mut Text) -> Result<(), Failed>
        requires { EventFits self.now.model.now self.now.event.now }
        ensures bytes { GathersTo K.Sink sink.old sink.new text.old text.new
            (spec.result_text self.now.model.now.chip self.now.event.now) result }
        ensures stays { SinkStays K.Sink sink.old sink.new result }
    {
        make_room(sink, text)?;
        self.push_end(text);
        self.put_rest(sink, text)
    }
}
