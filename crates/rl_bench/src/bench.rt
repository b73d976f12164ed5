//! The device.
ghost use Rattle.std.specs.Prelude.{◌≡◌, ◌+◌, ◌-◌, ◌<◌, ◌≤◌, ◌^◌, length, if◌then◌else◌, nat_lt, IfOk};
ghost use Rattle.std.specs.Prelude.{slice_get, option_copied, option_map, Some, min, true, All, List, replicate, ◌==◌};
ghost use Rattle.rl_bus.specs.declared.table.WordRow.{WordRow as Words};
ghost use Rattle.rl_bench.specs.Prelude.{AnswerHasCause, IsStep, IsPortOf, IsCellOf, IsFieldOf, IsWidth, stands_at};
ghost use Rattle.rl_bench.specs.Prelude.{state_after, answer_of, first_state, poked, reset_by, hw_set};
ghost use Rattle.rl_bench.specs.Prelude.{carried_by, IsWellFormed, IsReplyTo, IsAtOnce, answered_by, IsBuiltWith};
ghost use Rattle.rl_bench.specs.Prelude.{IsQuiet, HasBeats, BeatsAreWords, IsStretch, IsHint, AreOrdered, FitCells};
ghost use Rattle.rl_bench.specs.Prelude.{IsSetup, HasRoom, AreFlawsOf, first_of, words_on, words_for, beat_for};
ghost use Rattle.rl_bench.specs.Prelude.{item_is_faulty, setup_held, without_peer, Asks, tag_of};
ghost use Rattle.rl_bus.specs.Account as ask;

use crate::access::touch;
use crate::backdoor::{peek_cell, poke_cell, set_field};
use crate::beats::{beat_at, clear_beats, first_beats, send_back, set_beat};
use crate::board::{Board, board_of};
use crate::cells::{Cells, empty_cells};
use crate::find::{Stretch, find_word, words_at};
use crate::hints::Hints;
use crate::reset::reset_cells;
use crate::rows::count_locations;
use crate::tables::Tables;
use rl_bus::{Answer, BusOp, Cell, Device, Response, Transfer, WordRow, carried, response_to};
use rl_flaw::Flaw;
use rl_map::Layout;
use rl_model::Chip;
use std::alloc::{AllocError, Global};

/// A device that does what its tables say, with each register in two words: this project's own.
pub struct Bench {
    board: Board,
    cells: Cells,
    beats: Vec<u32>,
    /// The words that the last item found: the next one's are mostly near.
    near: Stretch,
    /// The words of the addresses that were found last.
    hints: Hints,
    items: u64,
    /// How many items failed.
    failures: u64,
    ghost quiet: { IsQuiet (setup_held board.tables).words beats.items },
    ghost fit: { FitCells (setup_held board.tables) cells },
    ghost beaten: { HasBeats (setup_held board.tables).words beats.items },
    ghost named: { BeatsAreWords (setup_held board.tables).words beats.items },
    ghost hinted: { All (IsHint (setup_held board.tables).words) hints.slots.items },
}

// Written out, so that whoever owns a device lets it go by one call, and not field by field.
impl Drop for Bench {
    fn drop(self) {
        let Bench {
            board: _,
            cells: _,
            beats: _,
            near: _,
            hints: _,
            items: _,
            failures: _,
        } = self;
    }
}

// The words at an address, its beat, the word of a direction at the beat, and how many there are.
#[derive(Clone, Copy)]
struct Found<'a> {
    at: Stretch,
    beat: u32,
    word: Option<&'a WordRow>,
    count: usize,
}

// The words at an item's address, from its slot or near the last ones or by a search.
fn stretch_at(words: &[WordRow], hints: &Hints, near: Stretch, port: u32, address: u64) -> Stretch
    requires rise { AreOrdered words.now }
    requires hints { All (IsHint words.now) hints.now.slots.items }
    ensures { IsStretch (stands_at port address) words.now result.first result.end }
{
    match hints.find(words, port, address) {
        Some(at) => at,
        None => words_at(words, near, port, address),
    }
}

// The words at an item's address, and the one at the beat.
fn find<'a>(
    board: &'a Board,
    beats: &[u32],
    hints: &Hints,
    near: Stretch,
    port: u32,
    op: &BusOp,
) -> Found<'a>
    requires { All (IsHint (words_on board.now)) hints.now.slots.items }
    ensures at { IsStretch (stands_at port op.now.address) (words_on board.now) result.at.first result.at.end }
    ensures beat { result.beat ≡ beat_for board.now beats.now port op.now }
    ensures word { option_copied result.word
        ≡ slice_get (words_for board.now port op.now) (beat_for board.now beats.now port op.now) }
    ensures count { result.count ≡ length (words_for board.now port op.now) }
{
    let words = board.tables.words();
    let at = stretch_at(words, hints, near, port, op.address);
    let beat = beat_at(beats, at);
    let here = find_word(words, at, port, op.address, op.write, beat);
    Found {
        at,
        beat,
        word: here.word,
        count: here.count,
    }
}

fn is_faulty(tables: &Tables, port: u32, op: &BusOp, count: u64) -> bool
    requires { port < length (setup_held tables.now).ports }
    ensures { result ≡ item_is_faulty (setup_held tables.now) port op.now count }
{
    u32::from(op.bytes) != tables.ports[port as usize] || tables.is_named(port, op.address, count)
}

fn next_beat(beat: u32, count: usize) -> u32
    requires { count < 2 ^ 32 }
    ensures { result ≡ (if nat_lt (beat + 1) count then beat + 1 else 0) }
{
    if (beat as usize) + 1 < count {
        beat + 1
    } else {
        0
    }
}

// The answer of a failed item, which counts.
fn failed_answer(failures: &mut u64) -> Answer
    ensures answer { result ≡ record { word = 0; failed = true } }
    ensures failures { failures.new ≡ min (failures.old + 1) (2 ^ 64 - 1) }
    ensures cause { AnswerHasCause failures.old failures.new result }
{
    *failures = failures.saturating_add(1);
    Answer {
        word: 0,
        failed: true,
    }
}

/// What a device keeps beside its tables.
#[derive(Drop)]
struct Memory {
    cells: Cells,
    beats: Vec<u32>,
    hints: Hints,
}

/// A memory in which nothing was written and no address was found.
fn empty_memory(alloc: Global, board: &Board, locations: usize) -> Result<Memory, AllocError>
    ensures bits { IfOk result (λ m. m.cells.bits.items ≡ replicate (length (setup_held board.now.tables).regs) 0) }
    ensures marks { IfOk result (λ m. m.cells.marks.items ≡ replicate (length (setup_held board.now.tables).regs) 0) }
    ensures locations { IfOk result (λ m. m.cells.locations.items ≡ replicate locations 0) }
    ensures beats { IfOk result (λ m. m.beats.items
        ≡ replicate (if length board.now.queues.items == 0 then 0 else length (setup_held board.now.tables).words) 0) }
    ensures hints { IfOk result (λ m. (words : List Words) → All (IsHint words) m.hints.slots.items) }
{
    let regs = board.tables.regs.len();
    Ok(Memory {
        hints: Hints::new(alloc)?,
        beats: first_beats(alloc, board.tables.words().len(), &board.queues)?,
        cells: empty_cells(alloc, regs, locations)?,
    })
}

impl Bench {
    ghost use Rattle.rl_bench.specs.State.{bench_state, failures_of, failures_after};

    /// The device of a chip and a layout with these flaws, after a hard reset and with no item so far.
    ///
    /// # Errors
    ///
    /// Want of memory.
    ///
    /// # Examples
    ///
    /// Register 0 has a field `RW`, its lowest four bits, which is 0x5 after HARD. Bit 1 of it is stuck at 1.
    ///
    /// ```text
    /// let flaws = [Flaw::Stuck { field: 0, bit: 1, value: true }];
    /// let mut bench = Bench::build(alloc, &chip, &layout, &flaws)?;
    /// bench.peek(Cell::Reg { reg: 0 }) == 0x7
    /// bench.poke(Cell::Reg { reg: 0 }, 0x0);
    /// bench.peek(Cell::Reg { reg: 0 }) == 0x2
    /// ```
    pub fn build(
        alloc: Global,
        chip: &Chip,
        layout: &Layout,
        flaws: &[Flaw],
    ) -> Result<Bench, AllocError>
        requires built_with { IsBuiltWith layout.now chip.now }
        requires flaws { AreFlawsOf chip.now layout.now flaws.now }
        ensures state { IfOk result (λ b. bench_state b ≡ first_of chip.now layout.now flaws.now) }
        ensures failures { IfOk result (λ b. failures_of b ≡ 0) }
    {
        let tables = Tables::build(alloc, chip, layout, flaws)?;
        let locations = count_locations(chip);
        Bench::new(alloc, tables, locations)
    }

    /// A device in its first state, with room for so many locations of memories.
    fn new(alloc: Global, tables: Tables, locations: usize) -> Result<Bench, AllocError>
        requires setup { IsSetup (setup_held tables) }
        requires room { HasRoom (setup_held tables) locations }
        ensures state { IfOk result (λ b. bench_state b ≡ first_state (setup_held tables) locations) }
        ensures failures { IfOk result (λ b. failures_of b ≡ 0) }
    {
        let board = board_of(alloc, tables)?;
        let mut memory = empty_memory(alloc, &board, locations)?;
        reset_cells(&board, &mut memory.cells, 0);
        Ok(Bench {
            board,
            cells: memory.cells,
            beats: memory.beats,
            near: Stretch { first: 0, end: 0 },
            hints: memory.hints,
            items: 0,
            failures: 0,
        })
    }

    // One item.
    fn item(&mut self, port: u32, op: &BusOp) -> Answer
        requires port { port < length (bench_state self.old).setup.ports }
        requires width { IsWidth op.now.bytes }
        requires lanes { op.now.lanes < 2 ^ op.now.bytes }
        ensures state { bench_state self.new ≡ state_after (bench_state self.old) port op.now }
        ensures answer { result ≡ answer_of (bench_state self.old) port op.now }
        ensures cause { AnswerHasCause (failures_of self.old) (failures_of self.new) result }
        ensures failures { failures_of self.new ≡ failures_after (failures_of self.old) result }
        ensures small { result.word < 256 ^ op.now.bytes }
    {
        self.items = self.items.saturating_add(1);
        let board = &self.board;
        let found = find(board, &self.beats, &self.hints, self.near, port, op);
        self.near = found.at;
        self.hints.keep(port, op.address, found.at);
        let Some(word) = found.word else {
            return failed_answer(&mut self.failures);
        };
        if is_faulty(&board.tables, port, op, self.items) {
            send_back(&board.queues, &mut self.beats, word.place);
            return failed_answer(&mut self.failures);
        }
        let answer = touch(board, &mut self.cells, op, word);
        let next = next_beat(found.beat, found.count);
        set_beat(&mut self.beats, found.at, next);
        Answer {
            word: answer,
            failed: false,
        }
    }
}

impl Device for Bench {
    ghost use Rattle.rl_bench.specs.State.{bench_state, state_told, failures_of, failures_after, item_fails};

    ghost state = { λ b. Some (bench_state b) };

    ghost account = { λ b. without_peer (failures_of b) };

    fn transfer(&mut self, port: u32, transfer: &Transfer) -> Response
        requires well_formed { IsWellFormed transfer.now }
        requires port { IsPortOf (Some (bench_state self.old)) port }
        ensures reply { IsReplyTo transfer.now result }
        ensures small { (answered_by result).word < 256 ^ (carried_by transfer.now).bytes }
        ensures asked { Asks (without_peer (failures_of self.old)) (without_peer (failures_of self.new))
            (ask.transfer port (carried_by transfer.now) (tag_of transfer.now) (answered_by result)) }
        ensures step { IsStep (state_told self.old) (state_told self.new)
            port (carried_by transfer.now) (answered_by result) }
        ensures failures { failures_of self.new ≡ failures_after (failures_of self.old) (answered_by result) }
        ensures at_once { IsAtOnce result }
        ensures fails { (answered_by result).failed ≡ item_fails (bench_state self.old) port (carried_by transfer.now) }
    {
        let op = carried(transfer);
        let answer = self.item(port, &op);
        response_to(transfer, answer)
    }

    fn peek(&self, cell: Cell) -> u64 {
        peek_cell(&self.board, &self.cells, cell)
    }

    fn poke(&mut self, cell: Cell, value: u64)
        requires cell { IsCellOf (Some (bench_state self.old)) cell }
        ensures step { Some (bench_state self.new) ≡ option_map (λ s. poked s cell value)
            (Some (bench_state self.old)) }
        ensures asked { Asks (without_peer (failures_of self.old)) (without_peer (failures_of self.new)) (ask.poke cell value) }
        ensures failures { failures_of self.new ≡ failures_of self.old }
    {
        poke_cell(&self.board, &mut self.cells, cell, value);
    }

    fn reset(&mut self, kind: u32)
        ensures step { Some (bench_state self.new) ≡ option_map (λ s. reset_by s kind) (Some (bench_state self.old)) }
        ensures asked { Asks (without_peer (failures_of self.old)) (without_peer (failures_of self.new)) (ask.reset kind) }
        ensures failures { failures_of self.new ≡ failures_of self.old }
    {
        reset_cells(&self.board, &mut self.cells, kind);
        clear_beats(&mut self.beats);
    }

    fn hw(&mut self, field: u32, value: u64)
        requires field { IsFieldOf (Some (bench_state self.old)) field }
        ensures step { Some (bench_state self.new) ≡ option_map (λ s. hw_set s field value)
            (Some (bench_state self.old)) }
        ensures asked { Asks (without_peer (failures_of self.old)) (without_peer (failures_of self.new)) (ask.hw field value) }
        ensures failures { failures_of self.new ≡ failures_of self.old }
    {
        set_field(&self.board, &mut self.cells, field, value);
    }
}
