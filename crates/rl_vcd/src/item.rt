// The items of an event as APB transfers.
ghost use Rattle.std.specs.Prelude.{◌≡◌, ◌<◌, ◌%◌, ◌^◌, length};
ghost use Rattle.rl_vcd.specs.Items.{is_apb, bus_of, transfer_of, response_of};

use crate::pins::Bus;
use rl_access::TraceItem;
use rl_bus::{ApbResponse, ApbTransfer};
use rl_map::Layout;

/// Whether a port goes through the APB adapter.
pub(crate) fn is_apb(layout: &Layout, port: u32) -> bool
    requires { port < length layout.now.ports }
    ensures { result ≡ is_apb layout.now port }
{
    layout.port_kind(port).name.text() == b"apb".as_slice()
}

/// The bus of a port. Its data has 4 bytes at most.
pub(crate) fn bus_of(layout: &Layout, port: u32) -> Bus
    requires { port < length layout.now.ports }
    ensures { result ≡ bus_of layout.now port }
{
    Bus {
        number: port,
        bytes: layout.port_bytes(port).min(4) as u8,
    }
}

// The 32 lowest bits.
fn low(word: u64) -> u32
    ensures { result ≡ word % 2 ^ 32 }
{
    (word % (1 << 32)) as u32
}

/// What the APB adapter makes of an item.
pub(crate) fn transfer_of(item: &TraceItem) -> ApbTransfer
    ensures { result ≡ transfer_of item.now }
{
    ApbTransfer {
        write: item.op.write,
        paddr: low(item.op.address),
        pwdata: low(item.op.word),
        pstrb: item.op.lanes,
        bytes: item.op.bytes,
        serial: item.tag,
    }
}

/// The response with the answer of an item: the device model answers without wait cycles.
pub(crate) fn response_of(item: &TraceItem) -> ApbResponse
    ensures { result ≡ response_of item.now }
{
    ApbResponse {
        prdata: low(item.answer.word),
        pslverr: item.answer.failed,
        waits: 0,
        serial: item.tag,
    }
}
