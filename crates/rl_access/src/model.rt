//! A register model.
ghost use Rattle.std.specs.Prelude.{◌≡◌, ◌+◌, ◌-◌, ◌*◌, ◌<◌, ◌≤◌, ◌^◌, length, IfOk, IfSome, if◌then◌else◌};
ghost use Rattle.rl_access.specs.Prelude.{IsAccessOn, IsBuiltWith, IsFieldIn, IsMapIn, IsModel, IsNothingGathered};
ghost use Rattle.rl_access.specs.Prelude.{IsPlaceFor, all_bytes, bytes_of_field, count_of, differ, field_alone};
ghost use Rattle.rl_access.specs.Prelude.{field_of, field_read, field_written, first_of, forgetting, forgetting_field};
ghost use Rattle.rl_access.specs.Prelude.{fresh, is_alone, map_of_place, memory_size, needs_update, observing};
ghost use Rattle.rl_access.specs.Prelude.{place_at, predict_raw, predict_read, predict_write, reg_of, reset, set};
ghost use Rattle.rl_access.specs.Prelude.{size_of, update_word_of, whole};
ghost use Rattle.rl_access.specs.Gathering.{IsRegisterPlace};
ghost use Rattle.rl_access.specs.Observed.{IsWordOf};
ghost use Rattle.rl_model.specs.declared.rows.Item.TheVariants as item;

use crate::access::Access;
use crate::predictor::{Predictor, watched_word};
use crate::trace::TraceItem;
use rl_map::Layout;
use rl_mirror::Mirror;
use rl_model::{Chip, Field, Item};
use rl_policy::put;
use rl_policy::word::window;
use rl_split::narrow;
use std::alloc::{AllocError, Global};

/// A chip with its layout, what is believed of its registers, and a predictor (`uvm_reg_predictor`, IEEE 1800.2-2017,
/// 19.3) for its explicit roots.
pub struct Model {
    chip: Chip,
    layout: Layout,
    mirror: Mirror,
    predictor: Predictor,
}

// Written out, so that whoever owns a model lets it go by one call, and not field by field.
impl Drop for Model {
    fn drop(self) {
        let Model {
            chip: _,
            layout: _,
            mirror: _,
            predictor: _,
        } = self;
    }
}

impl std::marker::Model for Model {
    ghost use Rattle.rl_access.specs.Model.{ModelData, IsModel};

    ghost Value = { ModelData };

    ghost view = { λ m. record { chip = m.chip; layout = m.layout; mirror = m.mirror; gathered = m.predictor } };

    ghost invariant = { λ m.
        IsModel (record { chip = m.chip; layout = m.layout; mirror = m.mirror; gathered = m.predictor }) };
}

impl Model {
    /// The model of a chip and a layout that was built with it. It begins after a hard reset.
    ///
    /// Where no memory is found the chip and the layout are dropped.
    pub fn build(alloc: Global, chip: Chip, layout: Layout) -> Result<Model, AllocError>
        requires built_with { IsBuiltWith layout chip }
        ensures chip { IfOk result (λ m. m.chip ≡ chip) }
        ensures layout { IfOk result (λ m. m.layout ≡ layout) }
        ensures mirror { IfOk result (λ m. m.mirror ≡ fresh chip) }
        ensures nothing_gathered { IfOk result (λ m. IsNothingGathered m.gathered) }
        ensures sound { IfOk result IsModel }
    {
        let mirror = Mirror::build(alloc, &chip)?;
        let predictor = Predictor::build(alloc, &layout)?;
        // Each of these calls tells that its part is sound.
        let _ = chip.regs();
        let _ = layout.places();
        Ok(Model {
            chip,
            layout,
            mirror,
            predictor,
        })
    }

    /// Its chip.
    pub fn chip(&self) -> &Chip
        ensures chip { result.now ≡ self.now.chip }
        ensures sound { IsModel self.now }
    {
        &self.chip
    }

    /// Its layout.
    pub fn layout(&self) -> &Layout
        ensures layout { result.now ≡ self.now.layout }
        ensures sound { IsModel self.now }
    {
        &self.layout
    }

    /// What is believed of its registers.
    pub fn mirror(&self) -> &Mirror
        ensures mirror { result.now ≡ self.now.mirror }
        ensures sound { IsModel self.now }
    {
        &self.mirror
    }

    /// Its chip and its layout. What is believed and what was gathered is dropped.
    pub fn into_parts(self) -> (Chip, Layout)
        ensures chip { result.0 ≡ self.chip }
        ensures layout { result.1 ≡ self.layout }
        ensures built_with { IsBuiltWith result.1 result.0 }
    {
        let Model {
            chip,
            layout,
            mirror: _,
            predictor: _,
        } = self;
        (chip, layout)
    }

    /// The map that an event names: that of the place used, or the one asked for.
    pub(crate) fn map_used(&self, place: Option<u32>, map: Option<u32>) -> Option<u32>
        requires place { IfSome place (λ p. p < length self.now.layout.places) }
        requires map { IsMapIn (length self.now.layout.maps) map }
        ensures map { result ≡ map_of_place self.now.layout place map }
        ensures in_range { IsMapIn (length self.now.layout.maps) result }
    {
        match place {
            None => map,
            Some(place) => Some(self.layout.map_of(place)),
        }
    }

    /// Forgets what was gathered of a place, where its root is explicit.
    pub(crate) fn forget(&mut self, place: u32)
        requires { place < length self.old.layout.places }
        ensures { self.new ≡ forgetting self.old place }
    {
        if self.layout.explicit(self.layout.port_of(place)) {
            self.predictor.forget(place);
        }
    }

    /// Forgets what was gathered of the place, unless the access reaches the field's bytes alone.
    pub(crate) fn forget_around(&mut self, field: u32, place: u32, write: bool)
        requires field { field < length self.old.chip.fields }
        requires place { place < length self.old.layout.places }
        ensures { self.new ≡ forgetting_field self.old field place write }
    {
        if !self.is_narrow(field, place, write) {
            self.forget(place);
        }
    }

    /// The predictor sees the item of a word of a register's place.
    pub(crate) fn observe(&mut self, place: u32, item: &TraceItem)
        requires place { IsRegisterPlace self.old.layout place }
        requires word { IsWordOf self.old.layout place item.now.op }
        requires port { item.now.port ≡ (place_at self.old.layout place).port }
        ensures { self.new ≡ observing self.old item.now }
    {
        let watched = watched_word(&self.layout, place, &item.op);
        self.predictor.see(
            &self.chip,
            &self.layout,
            &mut self.mirror,
            watched,
            &item.op,
            &item.answer,
        );
    }

    /// Takes a write as done.
    pub(crate) fn predict_write(&mut self, access: &Access)
        requires { access.now.reg < length self.old.chip.regs }
        ensures { self.new ≡
            record self.old {
              mirror = predict_write self.old.chip access.now.reg access.now.value
                  access.now.fields self.old.mirror;
            } }
    {
        self.mirror
            .predict_write(&self.chip, access.reg, access.value, access.fields);
    }

    /// Takes a read of these fields, which answered the value, as done.
    pub(crate) fn predict_read(&mut self, reg: u32, value: u64, fields: u64)
        requires { reg < length self.old.chip.regs }
        ensures { self.new ≡
            record self.old { mirror = predict_read self.old.chip reg value fields self.old.mirror } }
    {
        self.mirror.predict_read(&self.chip, reg, value, fields);
    }

    /// Takes the register's bits as known.
    pub(crate) fn predict_raw(&mut self, reg: u32, value: u64)
        requires { reg < length self.old.chip.regs }
        ensures { self.new ≡ record self.old { mirror = predict_raw self.old.chip reg value self.old.mirror } }
    {
        self.mirror.predict_raw(&self.chip, reg, value);
    }

    /// Gives a field a desired value.
    pub(crate) fn set(&mut self, field: u32, value: u64)
        requires field { field < length self.old.chip.fields }
        requires value { value < 2 ^ (field_of self.old.chip field).shape.width }
        ensures { self.new ≡ record self.old { mirror = set self.old.chip field value self.old.mirror } }
    {
        self.mirror.set(&self.chip, field, value);
    }

    /// Takes a reset as done.
    pub(crate) fn reset(&mut self, kind: u32)
        requires { kind < length self.old.chip.kinds }
        ensures { self.new ≡ record self.old { mirror = reset self.old.chip kind self.old.mirror } }
    {
        self.mirror.reset(&self.chip, kind);
    }

    /// The fields whose bits in `read` aren't the mirrored ones, where this is a check.
    pub(crate) fn differ(&self, check: bool, reg: u32, read: u64) -> u64
        requires { reg < length self.now.chip.regs }
        ensures value { result ≡ (if check then differ self.now.chip reg read self.now.mirror else 0) }
        ensures fits { result < 2 ^ count_of self.now.chip reg }
    {
        if check {
            self.mirror.differ(&self.chip, reg, read)
        } else {
            0
        }
    }

    /// An access to a whole register at a place.
    pub(crate) fn whole(&self, reg: u32, place: u32, value: u64) -> Access
        requires reg { reg < length self.now.chip.regs }
        requires place { IsPlaceFor self.now (item.Reg reg) place }
        requires value { value < 256 ^ size_of self.now.chip reg }
        ensures access { result ≡ whole self.now reg place value }
        ensures valid { IsAccessOn self.now result }
        ensures digits { 16 ^ (2 * size_of self.now.chip reg) ≡ 256 ^ (place_at self.now.layout place).bytes }
    {
        let bytes = self.chip.bytes(Item::Reg(reg));
        Access {
            reg,
            place,
            chosen: all_bytes(bytes),
            fields: u64::MAX,
            value,
        }
    }

    /// The number of a location of a memory, which is below 65536.
    pub(crate) fn location(&self, mem: u32, index: u64) -> u32
        requires mem { mem < length self.now.chip.mems }
        requires index { index < memory_size self.now.chip mem }
        ensures { result ≡ index }
    {
        // The call tells how large a memory may be.
        let _ = self.chip.size(mem);
        index as u32
    }

    /// The shape of a field.
    pub(crate) fn field(&self, field: u32) -> Field
        requires { field < length self.now.chip.fields }
        ensures field { result ≡ (field_of self.now.chip field).shape }
        ensures reg { result.reg < length self.now.chip.regs }
        ensures bits { IsFieldIn (size_of self.now.chip result.reg) result }
    {
        self.chip.field(field)
    }

    /// Whether an access to a field reaches its own bytes alone.
    pub(crate) fn is_narrow(&self, field: u32, place: u32, write: bool) -> bool
        requires field { field < length self.now.chip.fields }
        requires place { place < length self.now.layout.places }
        ensures { result ≡ is_alone self.now field place write }
    {
        narrow(&self.chip, &self.layout, field, place, write)
    }

    /// An access to the bytes of one field.
    fn field_alone(&self, field: u32, place: u32, value: u64) -> Access
        requires field { field < length self.now.chip.fields }
        requires place { IsPlaceFor self.now (item.Reg (reg_of self.now.chip field)) place }
        requires value { value < 2 ^ (field_of self.now.chip field).shape.width }
        ensures access { result ≡ field_alone self.now field place value }
        ensures valid { IsAccessOn self.now result }
    {
        // A model that is opened is known to be sound.
        let _ = &self.layout;
        let shape = self.field(field);
        let number = self.place_in_register(field);
        Access {
            reg: shape.reg,
            place,
            chosen: bytes_of_field(&shape),
            fields: 1 << number,
            value: put(0, shape.lsb, shape.width, value),
        }
    }

    // The number of a field among those of its register.
    fn place_in_register(&self, field: u32) -> u32
        requires { field < length self.now.chip.fields }
        ensures number { result ≡ field - first_of self.now.chip (reg_of self.now.chip field) }
        ensures few { result < 64 }
    {
        field - self.chip.first_field(self.field(field).reg)
    }

    /// The access of a field write: narrow, or the whole register with the neutral word in each other field.
    pub(crate) fn field_written(&self, field: u32, place: u32, value: u64) -> Access
        requires field { field < length self.now.chip.fields }
        requires place { IsPlaceFor self.now (item.Reg (reg_of self.now.chip field)) place }
        requires value { value < 2 ^ (field_of self.now.chip field).shape.width }
        ensures access { result ≡ field_written self.now field place value }
        ensures valid { IsAccessOn self.now result }
        ensures reg { result.reg ≡ reg_of self.now.chip field }
    {
        if self.is_narrow(field, place, true) {
            self.field_alone(field, place, value)
        } else {
            let word = self.mirror.neutral_around(&self.chip, field, value);
            self.whole(self.field(field).reg, place, word)
        }
    }

    /// The access of a field read: narrow, or the whole register.
    pub(crate) fn field_read(&self, field: u32, place: u32) -> Access
        requires field { field < length self.now.chip.fields }
        requires place { IsPlaceFor self.now (item.Reg (reg_of self.now.chip field)) place }
        ensures access { result ≡ field_read self.now field place }
        ensures valid { IsAccessOn self.now result }
        ensures reg { result.reg ≡ reg_of self.now.chip field }
    {
        if self.is_narrow(field, place, false) {
            self.field_alone_read(field, place)
        } else {
            self.whole_read(self.field(field).reg, place)
        }
    }

    fn field_alone_read(&self, field: u32, place: u32) -> Access
        requires field { field < length self.now.chip.fields }
        requires place { IsPlaceFor self.now (item.Reg (reg_of self.now.chip field)) place }
        ensures access { result ≡ field_alone self.now field place 0 }
        ensures valid { IsAccessOn self.now result }
    {
        self.field_alone(field, place, 0)
    }

    /// Whether some field of the register has another desired value than its mirrored one.
    pub(crate) fn needs_update(&self, reg: u32) -> bool
        requires { reg < length self.now.chip.regs }
        ensures { result ≡ needs_update self.now.mirror reg }
    {
        self.mirror.needs_update(&self.chip, reg)
    }

    /// The word of an update.
    pub(crate) fn update_word_of(&self, reg: u32) -> u64
        requires { reg < length self.now.chip.regs }
        ensures word { result ≡ update_word_of self.now.chip reg self.now.mirror }
        ensures fits { result < 256 ^ size_of self.now.chip reg }
    {
        self.mirror.update_word_of(&self.chip, reg)
    }

    /// A read of a whole register at a place.
    pub(crate) fn whole_read(&self, reg: u32, place: u32) -> Access
        requires reg { reg < length self.now.chip.regs }
        requires place { IsPlaceFor self.now (item.Reg reg) place }
        ensures access { result ≡ whole self.now reg place 0 }
        ensures valid { IsAccessOn self.now result }
        ensures digits { 16 ^ (2 * size_of self.now.chip reg) ≡ 256 ^ (place_at self.now.layout place).bytes }
    {
        self.whole(reg, place, 0)
    }
}

// The bytes of an item: one bit for each.
pub(crate) fn all_bytes(bytes: u32) -> u8
    requires { bytes ≤ 8 }
    ensures { result ≡ all_bytes bytes }
{
    ((1u16 << bytes) - 1) as u8
}

// The bytes in which a field has a bit.
fn bytes_of_field(field: &Field) -> u8
    requires some { 1 ≤ field.now.width }
    requires most { field.now.lsb + field.now.width ≤ 64 }
    ensures { result ≡ bytes_of_field field.now }
{
    let first = field.lsb / 8;
    let last = (field.lsb + field.width - 1) / 8;
    window(first, last - first + 1) as u8
}
