// The device: a timer that counts accesses.
ghost use Rattle.rl_bus.specs.Account.{without_peer};
ghost use Rattle.std.specs.Prelude.{◌≡◌, None, IfSome};

use rl_bus::{Answer, BusOp, Cell, Device, Response, Transfer, carried, response_to};

/// A register of the timer. The description has them in this order, each of 4 bytes.
#[derive(Clone, Copy, Debug, PartialEq, Eq)]
enum Register {
    /// Bit 0 enables the count, and bits 8 to 15 are its step. RW.
    Ctrl,
    /// Rises by the step with each access over the bus while it is enabled. RO.
    Count,
    /// The count that is looked for. RW.
    Limit,
    /// Bit 0: the count has reached the limit. A write of 1 clears it.
    Status,
}

impl Register {
    // The register with this number in the description.
    fn numbered(number: u32) -> Option<Register> {
        match number {
            0 => Some(Register::Ctrl),
            1 => Some(Register::Count),
            2 => Some(Register::Limit),
            3 => Some(Register::Status),
            _ => None,
        }
    }

    // The register at this address of either port.
    fn at(address: u64) -> Option<Register> {
        match address {
            0x0 => Some(Register::Ctrl),
            0x4 => Some(Register::Count),
            0x8 => Some(Register::Limit),
            0xc => Some(Register::Status),
            _ => None,
        }
    }
}

// The bits of the fields.
const ENABLE: u32 = 0x1;

const CTRL_BITS: u32 = 0xff01;

const REACHED: u32 = 0x1;

// The numbers of the fields that the hardware may change, in the description.
const COUNT_FIELD: u32 = 2;

const REACHED_FIELD: u32 = 4;

// What the registers hold.
#[derive(Clone, Copy, Debug, PartialEq, Eq, Drop)]
struct Registers {
    ctrl: u32,
    count: u32,
    limit: u32,
    status: u32,
}

const AFTER_RESET: Registers = Registers {
    ctrl: 0x0100,
    count: 0,
    limit: 0xffff_ffff,
    status: 0,
};

// The bits of the bytes that are selected.
fn bits_of(lanes: u8) -> u32 {
    let mut bits = 0;
    for lane in 0..4u32 {
        if (lanes >> lane) & 1 == 1 {
            bits |= 0xff << (8 * lane);
        }
    }
    bits
}

// The lower half of a number.
fn low(value: u64) -> u32 {
    (value & 0xffff_ffff) as u32
}

impl Registers {
    fn stored(&self, register: Register) -> u32 {
        match register {
            Register::Ctrl => self.ctrl,
            Register::Count => self.count,
            Register::Limit => self.limit,
            Register::Status => self.status,
        }
    }

    fn store(&mut self, register: Register, word: u32) {
        match register {
            Register::Ctrl => self.ctrl = word & CTRL_BITS,
            Register::Count => self.count = word,
            Register::Limit => self.limit = word,
            Register::Status => self.status = word & REACHED,
        }
    }

    // A write over the bus, of the bits whose bytes are selected.
    fn write(&mut self, register: Register, word: u32, bits: u32) {
        let merged = (self.stored(register) & !bits) | (word & bits);
        match register {
            Register::Ctrl | Register::Limit => self.store(register, merged),
            Register::Count => {}
            // The device's mistake: any write clears the flag. Right is `self.status &= !(word & bits)`.
            Register::Status => self.status = 0,
        }
    }

    // Counts an access.
    fn tick(&mut self) {
        if self.ctrl & ENABLE == 0 {
            return;
        }
        let before = self.count;
        self.count = before.wrapping_add(self.ctrl >> 8);
        if before < self.limit && self.limit <= self.count {
            self.status |= REACHED;
        }
    }

    // One access: the word read, or of a write 0. None where the port has another width, or no register is there.
    fn access(&mut self, op: &BusOp) -> Option<u32>
        ensures port { IfSome result (λ _. op.now.bytes ≡ 4) }
    {
        if op.bytes != 4 {
            return None;
        }
        let register = Register::at(op.address)?;
        let bits = bits_of(op.lanes);
        let mut word = 0;
        if op.write {
            self.write(register, low(op.word), bits);
        } else {
            word = self.stored(register) & bits;
        }
        self.tick();
        Some(word)
    }
}

/// A timer that doesn't report its state: to its callers it may answer anything, and the log shows what it did.
#[derive(Clone, Copy, Debug, PartialEq, Eq, Drop)]
pub(crate) struct Timer {
    registers: Registers,
    /// How many transfers failed. It stays at the end of `u64`.
    errors: u64,
}

impl Timer {
    /// The timer after a reset.
    pub(crate) fn new() -> Timer
        ensures { result.errors ≡ 0 }
    {
        Timer {
            registers: AFTER_RESET,
            errors: 0,
        }
    }
}

impl Device for Timer {
    ghost state = { λ _. None };

    ghost account = { λ timer. without_peer timer.errors };

    fn transfer(&mut self, _port: u32, transfer: &Transfer) -> Response {
        let answer = match self.registers.access(&carried(transfer)) {
            Some(word) => Answer {
                word: u64::from(word),
                failed: false,
            },
            None => {
                self.errors = self.errors.saturating_add(1);
                Answer {
                    word: 0,
                    failed: true,
                }
            }
        };
        response_to(transfer, answer)
    }

    fn peek(&self, cell: Cell) -> u64 {
        match register_in(cell) {
            Some(register) => u64::from(self.registers.stored(register)),
            None => 0,
        }
    }

    fn poke(&mut self, cell: Cell, value: u64) {
        if let Some(register) = register_in(cell) {
            self.registers.store(register, low(value));
        }
    }

    fn reset(&mut self, _kind: u32) {
        self.registers = AFTER_RESET;
    }

    fn hw(&mut self, field: u32, value: u64) {
        match field {
            COUNT_FIELD => self.registers.store(Register::Count, low(value)),
            REACHED_FIELD => self.registers.store(Register::Status, low(value)),
            _ => {}
        }
    }
}

// The register that the backdoor means. The timer has no memory.
fn register_in(cell: Cell) -> Option<Register> {
    match cell {
        Cell::Reg { reg } => Register::numbered(reg),
        Cell::Loc { mem: _, index: _ } => None,
    }
}
