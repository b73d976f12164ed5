// The text of an operation, in canonical spelling.
ghost use Rattle.std.specs.Prelude.{◌≡◌, ◌+◌, ◌<◌, ◌≤◌, ◌++◌, length, true, Some, None, OnOk};
ghost use Rattle.rl_model.specs.Chip.{HasItem, path_of_item, field_path};
ghost use Rattle.rl_model.specs.Fields.{field_of};
ghost use Rattle.rl_access.specs.Operation.{HasNumbers, IsMapIn, reg_of};
ghost use Rattle.rl_report.specs.declared.operation.Subject.TheVariants.{Reg, Field, Mem};
ghost use Rattle.rl_report.specs.Operation.{spoken, spoken_of, subject_of, is_on_field, is_on_location};
ghost use Rattle.rl_report.specs.Operation.{subject_path, kind_text, number_text, numbers_text, map_text, spoken_text};
ghost use Rattle.rl_report.specs.Operation.{reset_text, counted_text, op_text, IsSubjectIn, IsSpokenIn};
ghost use Rattle.rl_report.specs.Pieces.{GathersTo, SinkStays};

use crate::pieces::gather;
use crate::telling::Telling;
use crate::text::Text;
use crate::{Failed, Sink};
use itoa::Buffer;
use rl_access::{Model, Op};
use rl_model::Item;
use rl_script::{Command, Item as Verb};

// What a command is on.
#[derive(Clone, Copy)]
pub(crate) enum Subject {
    Reg(u32),
    Field(u32),
    Mem(u32),
}

// An operation as a command on one item of the model. A number that the command lacks is 0.
#[derive(Clone, Copy)]
pub(crate) struct Spoken {
    command: Verb,
    subject: Subject,
    first: u64,
    second: u64,
    map: Option<u32>,
}

impl Spoken {
    // The command that asks for an operation: none for a burst and a reset, which are on no one item.
    fn of(op: Op) -> Option<Spoken>
        ensures { result ≡ spoken_of op }
    {
        Some(match op {
            Op::Write { reg, map, value } => Spoken::on_reg(Verb::Write, reg, value, map),
            Op::Read { reg, map } => Spoken::on_reg(Verb::Read, reg, 0, map),
            Op::Mirror { reg, map } => Spoken::on_reg(Verb::Mirror, reg, 0, map),
            Op::Check { reg, map } => Spoken::on_reg(Verb::Check, reg, 0, map),
            Op::Update { reg, map } => Spoken::on_reg(Verb::Update, reg, 0, map),
            Op::OtherWrite { reg, map, value } => Spoken::on_reg(Verb::OtherWrite, reg, value, map),
            Op::OtherRead { reg, map } => Spoken::on_reg(Verb::OtherRead, reg, 0, map),
            Op::Show { reg } => Spoken::on_reg(Verb::Show, reg, 0, None),
            Op::BackWrite { reg, value } => Spoken::on_reg(Verb::BackWrite, reg, value, None),
            Op::BackRead { reg } => Spoken::on_reg(Verb::BackRead, reg, 0, None),
            Op::BackCheck { reg } => Spoken::on_reg(Verb::BackCheck, reg, 0, None),
            Op::Peek { reg } => Spoken::on_reg(Verb::Peek, reg, 0, None),
            Op::Poke { reg, value } => Spoken::on_reg(Verb::Poke, reg, value, None),
            Op::FieldWrite { .. } | Op::FieldRead { .. } | Op::Set { .. } | Op::Hw { .. } => {
                Spoken::of_field(op)
            }
            Op::MemWrite { .. }
            | Op::MemRead { .. }
            | Op::MemCheck { .. }
            | Op::MemPeek { .. }
            | Op::MemPoke { .. } => Spoken::of_location(op),
            Op::BurstWrite { .. } | Op::BurstRead { .. } | Op::Reset { .. } => return None,
        })
    }

    fn of_field(op: Op) -> Spoken
        requires { is_on_field op ≡ true }
        ensures { spoken_of op ≡ Some result }
    {
        match op {
            Op::FieldWrite { field, map, value } => Spoken::on_field(
                Verb::FieldWrite,
                field,
                value,
                map,
            ),
            Op::FieldRead { field, map } => Spoken::on_field(Verb::FieldRead, field, 0, map),
            Op::Set { field, value } => Spoken::on_field(Verb::Set, field, value, None),
            Op::Hw { field, value } => Spoken::on_field(Verb::Hw, field, value, None),
            _ => unreachable!(),
        }
    }

    fn of_location(op: Op) -> Spoken
        requires { is_on_location op ≡ true }
        ensures { spoken_of op ≡ Some result }
    {
        match op {
            Op::MemWrite {
                mem,
                map,
                index,
                value,
            } => Spoken::on_mem(Verb::MemWrite, mem, index, value, map),
            Op::MemRead { mem, map, index } => Spoken::on_mem(Verb::MemRead, mem, index, 0, map),
            Op::MemCheck {
                mem,
                map,
                index,
                value,
            } => Spoken::on_mem(Verb::MemCheck, mem, index, value, map),
            Op::MemPeek { mem, index } => Spoken::on_mem(Verb::MemPeek, mem, index, 0, None),
            Op::MemPoke { mem, index, value } => Spoken::on_mem(
                Verb::MemPoke,
                mem,
                index,
                value,
                None,
            ),
            _ => unreachable!(),
        }
    }

    fn on_reg(command: Verb, reg: u32, first: u64, map: Option<u32>) -> Spoken
        ensures { result ≡ spoken command (Reg reg) first 0 map }
    {
        Spoken::on(command, Subject::Reg(reg), first, 0, map)
    }

    fn on_field(command: Verb, field: u32, first: u64, map: Option<u32>) -> Spoken
        ensures { result ≡ spoken command (Field field) first 0 map }
    {
        Spoken::on(command, Subject::Field(field), first, 0, map)
    }

    fn on_mem(command: Verb, mem: u32, first: u64, second: u64, map: Option<u32>) -> Spoken
        ensures { result ≡ spoken command (Mem mem) first second map }
    {
        Spoken::on(command, Subject::Mem(mem), first, second, map)
    }

    fn on(command: Verb, subject: Subject, first: u64, second: u64, map: Option<u32>) -> Spoken
        ensures { result ≡ spoken command subject first second map }
    {
        Spoken {
            command,
            subject,
            first,
            second,
            map,
        }
    }
}

// What an operation is on: none for a reset.
#[inline(always)]
pub(crate) fn subject_of(op: Op) -> Option<Subject>
    ensures { result ≡ subject_of op }
{
    Some(match op {
        Op::Write { reg, .. }
        | Op::Read { reg, .. }
        | Op::Mirror { reg, .. }
        | Op::Check { reg, .. }
        | Op::Show { reg }
        | Op::Update { reg, .. }
        | Op::BackWrite { reg, .. }
        | Op::BackRead { reg }
        | Op::BackCheck { reg }
        | Op::Peek { reg }
        | Op::Poke { reg, .. }
        | Op::OtherWrite { reg, .. }
        | Op::OtherRead { reg, .. } => Subject::Reg(reg),
        Op::FieldWrite { field, .. }
        | Op::FieldRead { field, .. }
        | Op::Set { field, .. }
        | Op::Hw { field, .. } => Subject::Field(field),
        Op::MemWrite { mem, .. }
        | Op::MemRead { mem, .. }
        | Op::MemCheck { mem, .. }
        | Op::BurstWrite { mem, .. }
        | Op::BurstRead { mem, .. }
        | Op::MemPeek { mem, .. }
        | Op::MemPoke { mem, .. } => Subject::Mem(mem),
        Op::Reset { .. } => return None,
    })
}

// The path of an item.
fn path_of(model: &Model, item: Item) -> &[u8]
    requires { HasItem model.now.chip item }
    ensures { result.now ≡ path_of_item model.now.chip item }
{
    model.chip().path(item)
}

// The name of a field.
pub(crate) fn name_of(model: &Model, field: u32) -> &[u8]
    requires { field < length model.now.chip.fields }
    ensures { result.now ≡ (field_of model.now.chip field).name }
{
    model.chip().field_name(field)
}

// The name of a reset kind.
fn kind_name(model: &Model, kind: u32) -> &[u8]
    requires { kind < length model.now.chip.kinds }
    ensures { result.now ≡ kind_text model.now.chip kind }
{
    model.chip().kind_name(kind)
}

// The register of a field.
pub(crate) fn register_with(model: &Model, field: u32) -> u32
    requires { field < length model.now.chip.fields }
    ensures value { result ≡ reg_of model.now.chip field }
    ensures in_range { result < length model.now.chip.regs }
{
    model.chip().field(field).reg
}

// Appends a number, behind a space.
#[inline]
fn push_number(text: &mut Text, n: u64)
    requires room { length text.old + 19 ≤ 512 }
    ensures text { text.new ≡ text.old ++ number_text n }
    ensures len { length text.new ≤ length text.old + 19 }
{
    text.push(b" 0x");
    text.push_hex(n);
}

// Appends as many of two numbers as a command has.
#[inline]
fn push_numbers(text: &mut Text, count: usize, first: u64, second: u64)
    requires room { length text.old + 38 ≤ 512 }
    ensures text { text.new ≡ text.old ++ numbers_text count first second }
    ensures len { length text.new ≤ length text.old + 38 }
{
    match count {
        0 => {}
        1 => push_number(text, first),
        _ => {
            push_number(text, first);
            push_number(text, second);
        }
    }
}

// Gathers a map that may be missing.
#[inline(always)]
fn put_map<K: Sink>(
    sink: &mut K,
    text: &mut Text,
    model: &Model,
    through: Option<u32>,
) -> Result<(), Failed>
    requires room { length text.old + 2 ≤ 512 }
    requires through { IsMapIn (length model.now.layout.maps) through }
    ensures bytes { GathersTo K.Sink sink.old sink.new text.old text.new (map_text model.now.layout through) result }
    ensures stays { SinkStays K.Sink sink.old sink.new result }
{
    let Some(number) = through else {
        return Ok(());
    };
    text.push(b" @");
    gather(sink, text, model.layout().map_name(number))
}

// Gathers the path of a field.
fn put_field<K: Sink>(
    sink: &mut K,
    text: &mut Text,
    model: &Model,
    field: u32,
) -> Result<(), Failed>
    requires { field < length model.now.chip.fields }
    ensures bytes { GathersTo K.Sink sink.old sink.new text.old text.new
        (field_path model.now.chip (field_of model.now.chip field)) result }
    ensures room { OnOk result (length text.new ≤ 384) }
    ensures stays { SinkStays K.Sink sink.old sink.new result }
{
    let reg = register_with(model, field);
    gather(sink, text, path_of(model, Item::Reg(reg)))?;
    text.push(b".");
    gather(sink, text, name_of(model, field))
}

impl Subject {
    // Gathers the path of what a command is on.
    fn put<K: Sink>(self, sink: &mut K, text: &mut Text, model: &Model) -> Result<(), Failed>
        requires { IsSubjectIn model.now.chip self }
        ensures bytes { GathersTo K.Sink sink.old sink.new text.old text.new (subject_path model.now.chip self) result }
        ensures room { OnOk result (length text.new ≤ 384) }
        ensures stays { SinkStays K.Sink sink.old sink.new result }
    {
        match self {
            Subject::Reg(reg) => gather(sink, text, path_of(model, Item::Reg(reg))),
            Subject::Field(field) => put_field(sink, text, model, field),
            Subject::Mem(mem) => gather(sink, text, path_of(model, Item::Mem(mem))),
        }
    }
}

impl Spoken {
    // Gathers a command on one item.
    fn put<K: Sink>(self, sink: &mut K, text: &mut Text, model: &Model) -> Result<(), Failed>
        requires { IsSpokenIn model.now self }
        ensures bytes { GathersTo K.Sink sink.old sink.new text.old text.new (spoken_text model.now self) result }
        ensures stays { SinkStays K.Sink sink.old sink.new result }
    {
        let row = self.command.row();
        gather(sink, text, self.command.name())?;
        text.push(b" ");
        self.subject.put(sink, text, model)?;
        push_numbers(text, row.numbers, self.first, self.second);
        put_map(sink, text, model, self.map)
    }
}

// Gathers a burst.
fn put_burst<K: Sink>(
    sink: &mut K,
    text: &mut Text,
    model: &Model,
    name: &[u8],
    mem: u32,
    first: u64,
    count: u64,
    through: Option<u32>,
) -> Result<(), Failed>
    requires mem { mem < length model.now.chip.mems }
    requires through { IsMapIn (length model.now.layout.maps) through }
    ensures bytes { GathersTo K.Sink sink.old sink.new text.old text.new
        (counted_text model.now name.now mem first count through) result }
    ensures stays { SinkStays K.Sink sink.old sink.new result }
{
    let mut buffer = Buffer::new();
    gather(sink, text, name)?;
    text.push(b" ");
    gather(sink, text, path_of(model, Item::Mem(mem)))?;
    push_number(text, first);
    text.push(b" count ");
    text.push(buffer.format(count).as_bytes());
    put_map(sink, text, model, through)
}

// Gathers a reset.
fn put_reset<K: Sink>(sink: &mut K, text: &mut Text, model: &Model, kind: u32) -> Result<(), Failed>
    requires { kind < length model.now.chip.kinds }
    ensures bytes { GathersTo K.Sink sink.old sink.new text.old text.new (reset_text model.now.chip kind) result }
    ensures stays { SinkStays K.Sink sink.old sink.new result }
{
    gather(sink, text, Command::Reset.name())?;
    text.push(b" ");
    gather(sink, text, kind_name(model, kind))
}

impl<'a> Telling<'a> {
    // Gathers a burst or a reset.
    fn put_other<K: Sink>(&self, sink: &mut K, text: &mut Text) -> Result<(), Failed>
        requires numbers { HasNumbers self.now.model.now.chip (length self.now.model.now.layout.maps)
            self.now.event.now.op }
        requires other { spoken_of self.now.event.now.op ≡ None }
        ensures bytes { GathersTo K.Sink sink.old sink.new text.old text.new
            (op_text self.now.model.now self.now.event.now.op) result }
        ensures stays { SinkStays K.Sink sink.old sink.new result }
    {
        match self.event.op {
            Op::BurstWrite {
                mem,
                map,
                first,
                count,
            } => {
                let name = Command::BurstWrite.name();
                put_burst(sink, text, self.model, name, mem, first, count, map)
            }
            Op::BurstRead {
                mem,
                map,
                first,
                count,
            } => {
                let name = Verb::BurstRead.name();
                put_burst(sink, text, self.model, name, mem, first, count, map)
            }
            Op::Reset { kind } => put_reset(sink, text, self.model, kind),
            _ => unreachable!(),
        }
    }

    // Gathers an operation in canonical spelling.
    pub(crate) fn put_op<K: Sink>(&self, sink: &mut K, text: &mut Text) -> Result<(), Failed>
        requires { HasNumbers self.now.model.now.chip (length self.now.model.now.layout.maps)
            self.now.event.now.op }
        ensures bytes { GathersTo K.Sink sink.old sink.new text.old text.new
            (op_text self.now.model.now self.now.event.now.op) result }
        ensures stays { SinkStays K.Sink sink.old sink.new result }
    {
        match Spoken::of(self.event.op) {
            Some(spoken) => spoken.put(sink, text, self.model),
            None => self.put_other(sink, text),
        }
    }
}
