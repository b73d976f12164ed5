// A session that is made from a number, and the line that is written of it.
ghost use Rattle.std.specs.Prelude.{◌≡◌, ◌<◌, ◌≤◌, ◌++◌, [], ◌∷◌, map, length, OnOk, IfOk};
ghost use Rattle.rl_policy.specs.Numbers.{hex_digits};
ghost use Rattle.rl_report.specs.Pieces.{PutsText, joined};
ghost use Rattle.rl_session.specs.Soak.{next_state, drawn, policy_of, map_of, reg_text, place_text};
ghost use Rattle.rl_session.specs.Soak.{row_text, rows_text, step_of, verb_text, value_pieces, line_text, script_text};
ghost use Rattle.rl_session.specs.Soak.{description_text, soak_text, mirror_sum, soak_line_text};

use crate::digits::front;
use crate::pieces::push_pieces;
use itoa::Buffer;
use rl_log::Counts;
use rl_mirror::Mirror;
use rl_policy::{POLICIES, Policy, spell};
use rl_report::{Failed, Sink, put_pieces, text_beside};
use std::alloc::{AllocError, Global};

const REGISTERS: u32 = 64;

const LINES: u32 = 20_000;

// An array of the description with a row for each register.
#[derive(Clone, Copy)]
enum Rows {
    Regs,
    Places,
}

// What a line of the script does.
#[derive(Clone, Copy)]
enum Step {
    Write,
    Read,
    Check,
    Set,
    Update,
    Peek,
    FieldWrite,
}

const STEPS: [Step; 8] = [
    Step::Write,
    Step::Write,
    Step::Read,
    Step::Check,
    Step::Set,
    Step::Update,
    Step::Peek,
    Step::FieldWrite,
];

fn next_state(x: u64) -> u64
    ensures { result ≡ next_state x }
{
    x.wrapping_mul(6_364_136_223_846_793_005)
        .wrapping_add(1_442_695_040_888_963_407)
}

fn drawn(x: u64, m: u64) -> u64
    requires { 0 < m }
    ensures { result ≡ drawn x m }
{
    (x >> 33) % m
}

#[tactic(auto, unfolding(crate::specs::Soak::step_of))]
fn step_of(c: u64) -> Step
    requires { c < 8 }
    ensures { result ≡ step_of c }
{
    STEPS[c as usize]
}

#[tactic(auto, unfolding(crate::specs::Soak::policy_of))]
fn policy_of(k: u32) -> Policy
    ensures { result ≡ policy_of k }
{
    POLICIES[(k % 25) as usize]
}

fn verb(step: Step) -> &'static [u8]
    ensures { result.now ≡ verb_text step }
{
    text_beside! {
        step: Step;
        Write b"write r", Read b"read r", Check b"check r", Set b"set r", Update b"update r", Peek b"peek r",
        FieldWrite b"field-write r"
    }
}

fn push_reg(text: &mut Vec<u8>, k: u32) -> Result<(), AllocError>
    ensures { OnOk result (text.new.items ≡ text.old.items ++ reg_text k) }
{
    let mut number = Buffer::new();
    let pieces: [&[u8]; 5] = [
        b"[[reg]]\nname = 'r",
        number.format(k).as_bytes(),
        b"'\nbytes = 4\nfield = [{name = 'f', lsb = 0, width = 32, policy = '",
        policy_of(k).name().as_bytes(),
        b"', reset = 0}]\n",
    ];
    push_pieces(text, &pieces)
}

fn map_of(k: u32) -> &'static [u8]
    ensures { result.now ≡ map_of k }
{
    if k % 2 == 0 { b"bus" } else { b"per" }
}

fn push_place(text: &mut Vec<u8>, k: u32) -> Result<(), AllocError>
    requires { k < 64 }
    ensures { OnOk result (text.new.items ≡ text.old.items ++ place_text k) }
{
    let mut number = Buffer::new();
    let mut offset = Buffer::new();
    let pieces: [&[u8]; 7] = [
        b"[[place]]\nmap = '",
        map_of(k),
        b"'\nitem = 'r",
        number.format(k).as_bytes(),
        b"'\noffset = ",
        offset.format(4 * k).as_bytes(),
        b"\n",
    ];
    push_pieces(text, &pieces)
}

fn push_row(text: &mut Vec<u8>, array: Rows, k: u32) -> Result<(), AllocError>
    requires { k < 64 }
    ensures { OnOk result (text.new.items ≡ text.old.items ++ row_text array k) }
{
    match array {
        Rows::Regs => push_reg(text, k),
        Rows::Places => push_place(text, k),
    }
}

fn push_rows(text: &mut Vec<u8>, array: Rows) -> Result<(), AllocError>
    ensures { OnOk result (text.new.items ≡ text.old.items ++ rows_text (row_text array) 0 64) }
{
    for k in 0..REGISTERS {
        push_row(text, array, k)?;
    }
    Ok(())
}

fn push_description(text: &mut Vec<u8>) -> Result<(), AllocError>
    ensures { OnOk result (text.new.items ≡ text.old.items ++ description_text) }
{
    push_rows(text, Rows::Regs)?;
    text.extend_from_slice(
        b"[[map]]\nname = 'bus'\nbytes = 2\nendian = 'big'\nadapter = 'plain'\n\
        [[map]]\nname = 'per'\nbytes = 4\nendian = 'little'\nadapter = 'apb'\n",
    )?;
    push_rows(text, Rows::Places)
}

// Hexadecimal digits behind a text.
fn push_hex(text: &mut Vec<u8>, before: &[u8], v: u64) -> Result<(), AllocError>
    ensures { OnOk result (text.new.items ≡ text.old.items ++ joined (before.now ∷ hex_digits v ∷ [])) }
{
    let mut digits = [0u8; 16];
    let len = spell(&mut digits, v);
    text.extend_from_slice(before)?;
    text.extend_from_slice(front(&digits, len))
}

fn push_value(text: &mut Vec<u8>, step: Step, v: u64) -> Result<(), AllocError>
    ensures { OnOk result (text.new.items ≡ text.old.items ++ joined (value_pieces step v)) }
{
    match step {
        Step::Write => push_hex(text, b" 0x", v),
        Step::Set | Step::FieldWrite => push_hex(text, b".f 0x", v),
        Step::Read | Step::Check | Step::Update | Step::Peek => Ok(()),
    }
}

fn push_line(text: &mut Vec<u8>, step: Step, k: u64, v: u64) -> Result<(), AllocError>
    ensures { OnOk result (text.new.items ≡ text.old.items ++ line_text step k v) }
{
    let mut number = Buffer::new();
    text.extend_from_slice(verb(step))?;
    text.extend_from_slice(number.format(k).as_bytes())?;
    push_value(text, step, v)?;
    text.extend_from_slice(b"\n")
}

fn push_script(text: &mut Vec<u8>, n: u64) -> Result<(), AllocError>
    ensures { OnOk result (text.new.items ≡ text.old.items ++ script_text 20000 n) }
{
    let mut x = n;
    for _line in 0..LINES {
        let first = next_state(x);
        let second = next_state(first);
        x = next_state(second);
        push_line(
            text,
            step_of(drawn(first, 8)),
            drawn(second, 64),
            drawn(x, 2_147_483_648),
        )?;
    }
    text.extend_from_slice(b"seq bit-bash *\n")
}

/// The session that is made from a number: 64 registers on two buses, and 20,000 lines of script that a linear
/// congruential generator draws, with a bit-bash of the whole chip at the end. It is this project's own.
pub fn soak_session(alloc: Global, n: u64) -> Result<Vec<u8>, AllocError>
    ensures { IfOk result (λ session. session.items ≡ soak_text n) }
{
    let mut text = Vec::with_capacity(alloc, 524_288)?;
    push_description(&mut text)?;
    text.extend_from_slice(b"---\n")?;
    push_script(&mut text, n)?;
    Ok(text)
}

/// The sum over the mirrored values of all registers.
pub fn mirror_sum(mirror: &Mirror, registers: u32) -> u64
    requires { registers ≡ length mirror.now.mirrored }
    ensures { result ≡ mirror_sum 0 mirror.now.mirrored }
{
    let mut sum = 0u64;
    for reg in 0..registers {
        sum = sum.wrapping_mul(31).wrapping_add(mirror.mirrored(reg));
    }
    sum
}

/// Writes the one line of a soak run.
pub fn put_soak_line<K: Sink>(sink: &mut K, n: u64, counts: &Counts, sum: u64) -> Result<(), Failed>
    ensures { PutsText K.Sink sink.old sink.new (soak_line_text n counts.now sum) result }
{
    let mut number = Buffer::new();
    let mut events = Buffer::new();
    let mut differences = Buffer::new();
    let mut errors = Buffer::new();
    let mut digits = [0u8; 16];
    let len = io::hex(sum, 16, &mut digits);
    let pieces: [&[u8]; 11] = [
        b"soak ",
        number.format(n).as_bytes(),
        b": ",
        events.format(counts.events).as_bytes(),
        b" events, ",
        differences.format(counts.differences).as_bytes(),
        b" differences, ",
        errors.format(counts.errors).as_bytes(),
        b" bus errors, mirror 0x",
        front(&digits, len),
        b"\n",
    ];
    put_pieces(sink, &pieces)
}
