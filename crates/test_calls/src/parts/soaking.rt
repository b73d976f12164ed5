// The soak session once more, by a plain loop: the bits of 64 registers, their desired values and their marks, and
// neither bus nor model.
ghost use Rattle.std.specs.Prelude.{◌<◌};

use crate::parts::running::ran;
use regrun::Status;
use std::alloc::Global;
use std::test::Fail;

const ONES: u64 = 0xffff_ffff;

// The bits of the policy of a number behind a write, by the policies' table.
fn after_write(policy: usize, bits: u64, word: u64, spent: bool) -> u64 {
    match policy {
        // RO, RC and RS.
        0 | 2 | 3 => bits,
        // RW, WRC, WRS and WO.
        1 | 4 | 5 | 20 => word,
        // WC, WCRS and WOC.
        6 | 9 | 21 => 0,
        // WS, WSRC and WOS.
        7 | 8 | 22 => ONES,
        // W1C and W1CRS.
        10 | 17 => bits & (word ^ ONES),
        // W1S and W1SRC.
        11 | 16 => bits | word,
        // W1T.
        12 => bits ^ word,
        // W0C and W0CRS.
        13 | 19 => bits & word,
        // W0S and W0SRC.
        14 | 18 => bits | (word ^ ONES),
        // W0T.
        15 => bits ^ word ^ ONES,
        // W1 and WO1.
        _ => { if spent { bits } else { word } }
    }
}

fn after_read(policy: usize, bits: u64) -> u64 {
    match policy {
        // RC, WRC, WSRC, W1SRC and W0SRC.
        2 | 4 | 8 | 16 | 18 => 0,
        // RS, WRS, WCRS, W1CRS and W0CRS.
        3 | 5 | 9 | 17 | 19 => ONES,
        _ => bits,
    }
}

// The word that brings the bits to their desired values.
fn update_word(policy: usize, desired: u64, bits: u64) -> u64 {
    match policy {
        // W1C, W0S, W1CRS and W0SRC.
        10 | 14 | 17 | 18 => desired ^ ONES,
        // W1T.
        12 => desired ^ bits,
        // W0T.
        15 => desired ^ bits ^ ONES,
        _ => desired,
    }
}

fn is_write_only(policy: usize) -> bool {
    matches!(policy, 20 | 21 | 22 | 24)
}

// A register of one field.
#[derive(Clone, Copy)]
struct Register {
    policy: usize,
    bits: u64,
    desired: u64,
    spent: bool,
}

impl Register {
    fn write(&mut self, word: u64) {
        self.bits = after_write(self.policy, self.bits, word, self.spent);
        self.desired = self.bits;
        self.spent = true;
    }

    fn read(&mut self) {
        self.bits = after_read(self.policy, self.bits);
        if !is_write_only(self.policy) {
            self.desired = self.bits;
        }
    }

    fn set(&mut self, value: u64) {
        self.desired = after_write(self.policy, self.desired, value, self.spent);
    }

    fn update(&mut self) {
        if self.desired != self.bits {
            self.write(update_word(self.policy, self.desired, self.bits));
        }
    }

    fn does(&mut self, command: u64, value: u64) {
        match command {
            0 | 1 | 7 => self.write(value),
            2 | 3 => self.read(),
            4 => self.set(value),
            5 => self.update(),
            _ => self.desired = self.bits,
        }
    }

    // Each bit is turned round twice, and read behind each write.
    fn bash(&mut self) {
        for bit in 0..32u32 {
            for _ in 0..2u32 {
                self.write(self.bits ^ (1 << bit));
                self.read();
            }
        }
    }
}

// The generator.
fn draw(state: &mut u64, most: u64) -> u64
    requires { 0 < most }
    ensures { result < most }
{
    *state = state
        .wrapping_mul(6_364_136_223_846_793_005)
        .wrapping_add(1_442_695_040_888_963_407);
    (*state >> 33) % most
}

// The registers before the session: one of each policy in turn.
fn registers() -> [Register; 64] {
    let mut registers = [Register {
        policy: 0,
        bits: 0,
        desired: 0,
        spent: false,
    }; 64];
    for k in 0..64usize {
        registers[k].policy = k % 25;
    }
    registers
}

// The lines that are drawn.
fn play(registers: &mut [Register; 64], number: u64) {
    let mut state = number;
    for _ in 0..20_000u32 {
        let command = draw(&mut state, 8);
        let k = draw(&mut state, 64);
        let value = draw(&mut state, 0x8000_0000);
        registers[k as usize].does(command, value);
    }
}

// The last line: how many of its steps there are.
fn bash(registers: &mut [Register; 64]) -> u64 {
    let mut steps = 0u64;
    for register in registers {
        if !is_write_only(register.policy) {
            register.bash();
            steps = steps.saturating_add(32 * 4);
        }
    }
    steps
}

fn sum_of(registers: &[Register; 64]) -> u64 {
    let mut sum = 0u64;
    for register in registers {
        sum = sum.wrapping_mul(31).wrapping_add(register.bits);
    }
    sum
}

// The line of the session of a number.
fn line_of(alloc: Global, number: u64) -> Result<String, Fail> {
    let mut registers = registers();
    play(&mut registers, number);
    let events = bash(&mut registers).saturating_add(20_000);
    let sum = sum_of(&registers);
    Ok(format!(in alloc;
        "soak {number}: {events} events, 0 differences, 0 bus errors, mirror 0x{sum:016x}\n"
    )?)
}

// What the command writes.
fn line_written(alloc: Global, number: u64) -> Result<(Status, Vec<u8>), Fail> {
    let number = format!(in alloc; "{number}")?;
    ran(alloc, &["soak", number.as_str()], &[], 1, &[], &[])
}

// Twice, and the second time as the first.
#[test]
fn soak_comes_to_what_a_plain_loop_does(rt: HostRuntime) -> Result<(), Fail> {
    for number in [1u64, 7, 1, 7] {
        let (status, line) = line_written(rt.alloc(), number)?;
        assert_eq!(rt; status, Status::Passed, "soak {number}");
        let want = line_of(rt.alloc(), number)?;
        assert_eq!(rt; line.as_slice(), want.as_bytes(), "soak {number}");
    }
    Ok(())
}
