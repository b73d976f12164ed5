//! The pins of transfers with a wait cycle.
use rl_apb::*;
use rl_bus::{ApbResponse, ApbTransfer};

const WRITE: ApbTransfer = ApbTransfer {
    write: true,
    paddr: 4,
    pwdata: 5,
    pstrb: 15,
    bytes: 4,
    serial: 0,
};

const READ: ApbTransfer = ApbTransfer {
    write: false,
    ..WRITE
};

// With one wait cycle, and an error.
const RESPONSE: ApbResponse = ApbResponse {
    prdata: 6,
    pslverr: true,
    waits: 1,
    serial: 0,
};

const SETUP: Pins = Pins {
    psel: true,
    penable: false,
    pwrite: true,
    pprot: 0,
    paddr: 4,
    pwdata: 5,
    pstrb: 15,
    pready: false,
    prdata: 0,
    pslverr: false,
};

const WAITING: Pins = Pins {
    penable: true,
    ..SETUP
};

const READY: Pins = Pins {
    pready: true,
    prdata: 6,
    pslverr: true,
    ..WAITING
};

const READ_READY: Pins = Pins {
    pwrite: false,
    pwdata: 0,
    pstrb: 0,
    ..READY
};

// The pins in a cycle of the transfer.
fn pins_in(transfer: &ApbTransfer, cycle: u32) -> Option<Pins> {
    if cycle > u32::from(RESPONSE.waits) + 1 {
        return None;
    }
    Some(cycles(transfer, &RESPONSE, cycle))
}

// A transfer, a cycle of it, and the pins then.
type Row = (ApbTransfer, u32, Pins);

static PINS: [Row; 4] = [
    (WRITE, 0, SETUP),
    (WRITE, 1, WAITING),
    (WRITE, 2, READY),
    (READ, 2, READ_READY),
];

// By a function, so that no proof reads it.
fn rows() -> &'static [Row] {
    &PINS
}

#[test]
fn pins_of_transfers_with_a_wait(rt: HostRuntime) {
    for (transfer, cycle, pins) in rows() {
        assert_eq!(rt; pins_in(transfer, *cycle), Some(*pins));
    }
}
