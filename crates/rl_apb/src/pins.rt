// The pins of an APB transfer, by cycle.
ghost use Rattle.std.specs.Prelude.{
  ◌≡◌,
  ◌≤◌,
  ◌+◌,
  ◌==◌,
  true,
  false,
  if◌then◌else◌,
  nat_lt,
  ◌&&◌,
};

use rl_bus::{ApbResponse, ApbTransfer};

/// The signals of APB4 in one cycle, with the names of ARM IHI 0024. The values of the completer are
/// `pready`, `prdata` and `pslverr`; all others are the requester's.
#[derive(Clone, Copy, Debug, PartialEq, Eq)]
pub struct Pins {
    /// PSEL: the completer is selected.
    pub psel: bool,
    /// PENABLE: the cycle is of the access phase.
    pub penable: bool,
    /// PWRITE: a write, and otherwise a read.
    pub pwrite: bool,
    /// PPROT, which is always 0.
    pub pprot: u8,
    /// PADDR: the address.
    pub paddr: u32,
    /// PWDATA: the word that is written.
    pub pwdata: u32,
    /// PSTRB: bit `l` enables byte `l` of PWDATA.
    pub pstrb: u8,
    /// PREADY: the cycle is the last one of the transfer.
    pub pready: bool,
    /// PRDATA: the word that is read.
    pub prdata: u32,
    /// PSLVERR: the transfer failed.
    pub pslverr: bool,
}

/// The pins in cycle `k` of a transfer with its response, counted from 0. A transfer takes
/// `waits + 2` cycles: the setup phase, and an access phase that ends where the completer is ready.
///
/// The phases, PENABLE, the steady values of the requester through all cycles, the wait cycles with PREADY low, and
/// PSTRB of 0 in a read are those of the standard. Where it leaves a value open, the one here is this project's own.
/// PPROT is always 0, PWDATA is 0 in a read, and PREADY is low in the setup phase. PRDATA and PSLVERR are 0 before the
/// last cycle, and PRDATA of a write is the response's.
///
/// # Examples
///
/// A transfer without wait cycles takes two: the setup phase, and the one cycle of the access phase.
///
/// ```text
/// let setup = cycles(&transfer, &response, 0);
/// (setup.psel, setup.penable, setup.pready) == (true, false, false)
/// let access = cycles(&transfer, &response, 1);
/// (access.psel, access.penable, access.pready) == (true, true, true)
/// ```
pub fn cycles(transfer: &ApbTransfer, response: &ApbResponse, k: u32) -> Pins
    requires in_range { k ≤ response.now.waits + 1 }
    ensures selected { result.psel ≡ true }
    ensures enabled_after_setup { result.penable ≡ nat_lt 0 k }
    ensures direction { result.pwrite ≡ transfer.now.write }
    ensures protection { result.pprot ≡ 0 }
    ensures address { result.paddr ≡ transfer.now.paddr }
    ensures write_data { result.pwdata ≡ (if transfer.now.write then transfer.now.pwdata else 0) }
    ensures strobes { result.pstrb ≡ (if transfer.now.write then transfer.now.pstrb else 0) }
    ensures ready_at_last { result.pready ≡ (k == response.now.waits + 1) }
    ensures read_data { result.prdata ≡ (if k == response.now.waits + 1 then response.now.prdata else 0) }
    ensures error { result.pslverr ≡ (k == response.now.waits + 1 && response.now.pslverr) }
{
    let last = k == u32::from(response.waits) + 1;
    Pins {
        psel: true,
        penable: k > 0,
        pwrite: transfer.write,
        pprot: 0,
        paddr: transfer.paddr,
        pwdata: if transfer.write { transfer.pwdata } else { 0 },
        pstrb: if transfer.write { transfer.pstrb } else { 0 },
        pready: last,
        prdata: if last { response.prdata } else { 0 },
        pslverr: last && response.pslverr,
    }
}
