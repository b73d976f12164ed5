//! The mirror of a chip.
ghost use Rattle.std.specs.Prelude.{◌≡◌, ◌↔◌, false, ℕ, ◌+◌, ◌^◌, ◌<◌, length, IfOk};
ghost use Rattle.rl_mirror.specs.Compared.{differ};
ghost use Rattle.rl_model.specs.Fields.{field_of, size_of, count_of, fields_of};
ghost use Rattle.rl_mirror.specs.Mirror.{mirrored_of, desired_of, is_spent, marks_in, IsMirrorOf, HasNoWish};
ghost use Rattle.rl_mirror.specs.Reachable.{IsReachable};
ghost use Rattle.rl_mirror.specs.Prediction.{written, predict_write, predict_read, predict_raw, reset, set, fresh};
ghost use Rattle.rl_mirror.specs.Prediction.{needs_update, update_word_of, neutral_around};

use crate::effect::Effect;
use crate::fields::{
    assembled, chosen, differing, numbered_field, owned, spend, told, written_over,
};
use crate::resets::{clear, reset_all};
use rl_model::{Chip, Field};
use rl_policy::policy::set_value;
use rl_policy::word::{put, replaced, take};
use std::alloc::{AllocError, Global};
use std::marker::Model;

/// What the register model believes of a chip: a mirrored and a desired value for each register (`uvm_reg_field`,
/// IEEE 1800.2-2017, 18.5), and a spent mark for each field, which is this project's own.
///
/// A call that takes a chip is for the chip with which the mirror was built.
#[derive(Debug)]
pub struct Mirror {
    mirrored: Vec<u64>,
    desired: Vec<u64>,
    spent: Vec<bool>,
}

// Written out, so that whoever owns a mirror lets it go by one call, and not field by field.
impl Drop for Mirror {
    fn drop(self) {
        let Mirror {
            mirrored: _,
            desired: _,
            spent: _,
        } = self;
    }
}

impl Model for Mirror {
    ghost use Rattle.rl_mirror.specs.Mirror.{MirrorData};

    ghost Value = { MirrorData };

    ghost view = { λ m. record { mirrored = m.mirrored.items; desired = m.desired.items; spent = m.spent.items } };
}

impl Mirror {
    /// The mirror after a hard reset; a field without a value for it begins at 0.
    ///
    /// # Errors
    ///
    /// An allocation that failed.
    pub fn build(alloc: Global, chip: &Chip) -> Result<Mirror, AllocError>
        ensures value { IfOk result (λ m. m ≡ fresh chip.now) }
        ensures built { IfOk result (IsMirrorOf chip.now) }
        ensures reach { IfOk result (IsReachable chip.now) }
    {
        let regs = chip.regs() as usize;
        let mut mirror = Mirror {
            mirrored: vec![in alloc; 0; regs]?,
            desired: vec![in alloc; 0; regs]?,
            spent: vec![in alloc; false; chip.fields() as usize]?,
        };
        mirror.reset(chip, 0);
        Ok(mirror)
    }

    /// Takes a write of `value` to the fields of the set as done: `uvm_reg_field::predict` with `UVM_PREDICT_WRITE`
    /// (IEEE 1800.2-2017, 18.5). Bit `k` of `fields` stands for the register's `k`-th field.
    ///
    /// The write changes mirrored and desired bits each by the policy, so a wish that it doesn't touch stays.
    /// That is this project's own.
    ///
    /// # Examples
    ///
    /// Register 0 has one compared field, `W1C` in its lowest four bits, mirrored as 0x5.
    ///
    /// ```text
    /// mirror.predict_write(&chip, 0, 0x3, 0b1);
    /// mirror.mirrored(0) == 0x4
    /// mirror.differ(&chip, 0, 0x6) == 0b1
    /// mirror.differ(&chip, 0, 0x4) == 0
    /// ```
    pub fn predict_write(&mut self, chip: &Chip, reg: u32, value: u64, fields: u64)
        requires reg { reg < length chip.now.regs }
        requires built { IsMirrorOf chip.now self.old }
        ensures value { self.new ≡ predict_write chip.now reg value fields self.old }
        ensures built { IsMirrorOf chip.now self.new }
        ensures reach { IsReachable chip.now self.old → IsReachable chip.now self.new }
    {
        let places = chosen(chip, reg, fields);
        let mirrored = self.mirrored[reg as usize];
        let desired = self.desired[reg as usize];
        let known = written_over(chip, reg, &self.spent, mirrored, value, places);
        self.mirrored[reg as usize] = known;
        self.desired[reg as usize] = replaced(desired, known, places);
        spend(chip, reg, fields, places, &mut self.spent);
    }

    /// Takes a read of the fields of the set as done, which answered `value`: `uvm_reg_field::predict` with
    /// `UVM_PREDICT_READ` (IEEE 1800.2-2017, 18.5).
    ///
    /// What it leaves becomes the mirrored and the desired bits. That it shows nothing of a write-only field is this
    /// project's own.
    pub fn predict_read(&mut self, chip: &Chip, reg: u32, value: u64, fields: u64)
        requires reg { reg < length chip.now.regs }
        requires built { IsMirrorOf chip.now self.old }
        ensures value { self.new ≡ predict_read chip.now reg value fields self.old }
        ensures built { IsMirrorOf chip.now self.new }
        ensures reach { IsReachable chip.now self.old → IsReachable chip.now self.new }
    {
        let places = told(chip, reg, fields);
        let (_, left) = chip.effects(reg).read(value, places);
        let mirrored = self.mirrored[reg as usize];
        let desired = self.desired[reg as usize];
        self.mirrored[reg as usize] = replaced(mirrored, left, places);
        self.desired[reg as usize] = replaced(desired, left, places);
    }

    /// Takes the register's bits as known to be those of `value`: `uvm_reg_field::predict` with `UVM_PREDICT_DIRECT`
    /// (IEEE 1800.2-2017, 18.5).
    pub fn predict_raw(&mut self, chip: &Chip, reg: u32, value: u64)
        requires reg { reg < length chip.now.regs }
        requires built { IsMirrorOf chip.now self.old }
        ensures value { self.new ≡ predict_raw chip.now reg value self.old }
        ensures built { IsMirrorOf chip.now self.new }
        ensures reach { IsReachable chip.now self.old → IsReachable chip.now self.new }
    {
        let bits = owned(chip, reg, value);
        self.mirrored[reg as usize] = bits;
        self.desired[reg as usize] = bits;
    }

    /// Takes a reset of this kind as done: `uvm_reg_field::reset` of each field (IEEE 1800.2-2017, 18.5). Kind 0 is
    /// the hard one, which clears all spent marks.
    pub fn reset(&mut self, chip: &Chip, kind: u32)
        requires kind { kind < length chip.now.kinds }
        requires built { IsMirrorOf chip.now self.old }
        ensures value { self.new ≡ reset chip.now kind self.old }
        ensures built { IsMirrorOf chip.now self.new }
        ensures reach { IsReachable chip.now self.old → IsReachable chip.now self.new }
    {
        reset_all(chip, kind, &mut self.mirrored);
        reset_all(chip, kind, &mut self.desired);
        if kind == 0 {
            clear(&mut self.spent);
        }
    }

    /// Asks for the value `v` in a field: `uvm_reg_field::set` (IEEE 1800.2-2017, 18.5).
    ///
    /// Its desired value becomes what a write of `v` over it would leave. That is this project's own.
    pub fn set(&mut self, chip: &Chip, field: u32, v: u64)
        requires field { field < length chip.now.fields }
        requires v { v < 2 ^ (field_of chip.now field).shape.width }
        requires built { IsMirrorOf chip.now self.old }
        ensures value { self.new ≡ set chip.now field v self.old }
        ensures built { IsMirrorOf chip.now self.new }
        ensures reach { IsReachable chip.now self.old → IsReachable chip.now self.new }
    {
        let Field {
            reg,
            lsb,
            width,
            policy,
            ..
        } = numbered_field(chip, field);
        let desired = self.desired(reg);
        let mark = self.spent(field);
        let wish = set_value(policy, width, take(desired, lsb, width), v, mark);
        self.desired[reg as usize] = put(desired, lsb, width, wish);
    }

    /// The register's desired value: `uvm_reg_field::get` of its fields (IEEE 1800.2-2017, 18.5).
    pub fn desired(&self, reg: u32) -> u64
        requires { reg < length self.now.desired }
        ensures { result ≡ desired_of self.now reg }
    {
        self.desired[reg as usize]
    }

    /// The register's mirrored value: `uvm_reg_field::get_mirrored_value` of its fields (IEEE 1800.2-2017, 18.5).
    pub fn mirrored(&self, reg: u32) -> u64
        requires { reg < length self.now.mirrored }
        ensures { result ≡ mirrored_of self.now reg }
    {
        self.mirrored[reg as usize]
    }

    /// Whether the field takes one write alone and has taken it.
    pub fn spent(&self, field: u32) -> bool
        requires { field < length self.now.spent }
        ensures { result ≡ is_spent self.now field }
    {
        self.spent[field as usize]
    }

    /// Whether some field of the register has another desired value than its mirrored one, so that `uvm_reg::update`
    /// (IEEE 1800.2-2017, 18.4) writes.
    pub fn needs_update(&self, chip: &Chip, reg: u32) -> bool
        requires reg { reg < length chip.now.regs }
        requires built { IsMirrorOf chip.now self.now }
        ensures value { result ≡ needs_update self.now reg }
        ensures fields { (result ≡ false) ↔ HasNoWish chip.now self.now reg }
    {
        self.desired(reg) != self.mirrored(reg)
    }

    /// The word of `uvm_reg::update` (IEEE 1800.2-2017, 18.4), this project's own: that to write so that the desired
    /// values result, as far as the fields' policies can reach them.
    pub fn update_word_of(&self, chip: &Chip, reg: u32) -> u64
        requires reg { reg < length chip.now.regs }
        requires built { IsMirrorOf chip.now self.now }
        ensures value { result ≡ update_word_of chip.now reg self.now }
        ensures fits { result < 256 ^ size_of chip.now reg }
    {
        let effect = Effect::Updating {
            desired: self.desired(reg),
            mirrored: self.mirrored(reg),
        };
        assembled(chip, reg, &self.spent, effect)
    }

    /// The word of the field's register with `v` in the field, and in each other field the word that leaves
    /// it as it is where its policy allows that. The neutral words are this project's own.
    pub fn neutral_around(&self, chip: &Chip, field: u32, v: u64) -> u64
        requires field { field < length chip.now.fields }
        requires v { v < 2 ^ (field_of chip.now field).shape.width }
        requires built { IsMirrorOf chip.now self.now }
        ensures value { result ≡ neutral_around chip.now field v self.now }
        ensures fits { result < 256 ^ size_of chip.now (field_of chip.now field).shape.reg }
    {
        let Field {
            reg,
            lsb,
            width,
            ..
        } = numbered_field(chip, field);
        let effect = Effect::Neutral {
            mirrored: self.mirrored(reg),
        };
        put(assembled(chip, reg, &self.spent, effect), lsb, width, v)
    }

    /// The compared fields whose bits in `read` are others than the mirrored ones: `uvm_reg::mirror` with `UVM_CHECK`
    /// (IEEE 1800.2-2017, 18.4). Bit `k` stands for the register's `k`-th field.
    pub fn differ(&self, chip: &Chip, reg: u32, read: u64) -> u64
        requires reg { reg < length chip.now.regs }
        requires built { IsMirrorOf chip.now self.now }
        ensures value { result ≡ differ chip.now reg read self.now }
        ensures fits { result < 2 ^ count_of chip.now reg }
    {
        differing(chip, reg, read, self.mirrored(reg))
    }

    /// The bits of a register after a write of `word` to all its fields, where it held `bits` and the fields
    /// have the mirror's spent marks.
    pub fn written(&self, chip: &Chip, reg: u32, bits: u64, word: u64) -> u64
        requires reg { reg < length chip.now.regs }
        requires built { IsMirrorOf chip.now self.now }
        ensures value { result ≡ written (fields_of chip.now reg) (marks_in chip.now self.now.spent reg) bits word }
        ensures fits { result < 256 ^ size_of chip.now reg }
    {
        let written = written_over(chip, reg, &self.spent, bits, word, u64::MAX);
        chip.effects(reg).owned & written
    }
}
