//! A description: a chip, its layout and the flaws of its device.
ghost use Rattle.std.specs.Prelude.{◌≡◌, ◌≢◌, ◌^◌, ◌<◌, Some, None, length, IfOk, IfErr};
ghost use Rattle.toml.specs.View.{table_view};
ghost use Rattle.rl_map.specs.Maps.{IsBuiltWith};
ghost use Rattle.rl_flaw.specs.Flaws.{AreFlawsOf};
ghost use Rattle.rl_desc.specs.Refusals.{Reads};
ghost use Rattle.rl_desc.specs.Flaws.{flaws_fault, flaws_of};
ghost use Rattle.rl_desc.specs.Described.{first_fault, description_of, described, rows_fault};

use crate::document::Document;
use crate::fault::{DescCause, DescFault};
use crate::flaw::{FlawPart, number_flaws};
use crate::read::read_document;
use rl_bus::AdapterKind;
use rl_flaw::Flaw;
use rl_map::Layout;
use rl_model::Chip;
use std::alloc::Global;
use std::marker::Model;

/// What a description describes: the chip, where its registers and memories are on the buses, and
/// the flaws that the device is to have, in description order.
#[derive(Drop)]
pub struct Desc {
    /// Its registers, fields and memories.
    pub chip: Chip,
    /// Where they are on the buses.
    pub layout: Layout,
    /// The flaws of the device, in the order of the description.
    pub flaws: Vec<Flaw>,
}

impl Model for Desc {
    ghost use Rattle.rl_desc.specs.Data.{DescData};

    ghost Value = { DescData };

    ghost view = { λ d. record { chip = d.chip; layout = d.layout; flaws = d.flaws.items } };
}

/// Reads a description in TOML.
///
/// `kinds` are those of the adapters at hand, of which a root map names one.
///
/// # Errors
///
/// The first condition that fails, with its place. Or running out of memory.
///
/// # Examples
///
/// `text` has these lines. A `map = "buss"` in the place would be refused: no such map.
///
/// ```text
/// [[reg]]
/// name = "ctrl"
/// bytes = 1
/// field = [{ name = "mode", lsb = 0, width = 4, policy = "RW", reset = 0x5 }]
/// [[map]]
/// name = "bus"
/// bytes = 1
/// [[place]]
/// map = "bus"
/// item = "ctrl"
///
/// let desc = read_description(alloc, text, &kinds)?;
/// desc.chip.reg_by_path(b"ctrl") == Some(0)
/// desc.layout.place_of(Item::Reg(0), None) == Some(0)
/// ```
pub fn read_description(
    alloc: Global,
    bytes: &[u8],
    kinds: &[AdapterKind],
) -> Result<Desc, DescFault>
    requires { length kinds.now < 2 ^ 32 }
    ensures valid { IfOk result (λ _. first_fault bytes.now kinds.now ≡ None) }
    ensures read { IfOk result (λ desc. description_of bytes.now kinds.now ≡ Some desc) }
    ensures refused { IfErr result (λ fault. fault ≢ DescFault.Memory → first_fault bytes.now kinds.now ≡ Some fault) }
    ensures built_with { IfOk result (λ desc. IsBuiltWith desc.layout desc.chip) }
    ensures flaws { IfOk result (λ desc. AreFlawsOf desc.chip desc.layout desc.flaws) }
    ensures kinds { IfOk result (λ desc. desc.layout.kinds ≡ kinds.now) }
{
    let table = match toml::table_from_slice(alloc, bytes) {
        Ok(table) => table,
        Err(e) => {
            if e.is_memory() {
                return Err(DescFault::Memory);
            }
            return Err(DescFault::Bad {
                cause: DescCause::Text,
                spot: None,
            });
        }
    };
    let document = read_document(alloc, &table)?;
    // The chip and its layout are built where the table stood.
    drop(table);
    build(alloc, &document, kinds)
}

fn build(alloc: Global, document: &Document, kinds: &[AdapterKind]) -> Result<Desc, DescFault>
    requires { length kinds.now < 2 ^ 32 }
    ensures exact { Reads (λ desc. desc) result (rows_fault document.now kinds.now) (described document.now kinds.now) }
    ensures built_with { IfOk result (λ desc. IsBuiltWith desc.layout desc.chip) }
    ensures flaws { IfOk result (λ desc. AreFlawsOf desc.chip desc.layout desc.flaws) }
    ensures kinds { IfOk result (λ desc. desc.layout.kinds ≡ kinds.now) }
{
    let chip = Chip::build(alloc, &document.parts)?;
    let layout = Layout::build(alloc, &chip, &document.maps, &document.places, kinds)?;
    with_flaws(alloc, chip, layout, &document.flaws)
}

/// The chip and its layout, with the flaws that the rows say.
fn with_flaws(
    alloc: Global,
    chip: Chip,
    layout: Layout,
    rows: &[FlawPart],
) -> Result<Desc, DescFault>
    ensures flaws { Reads (λ desc. desc.flaws) result (flaws_fault chip layout 0 rows.now) (flaws_of chip layout rows.now) }
    ensures chip { IfOk result (λ desc. desc.chip ≡ chip) }
    ensures layout { IfOk result (λ desc. desc.layout ≡ layout) }
{
    let flaws = number_flaws(alloc, &chip, &layout, rows)?;
    Ok(Desc {
        chip,
        layout,
        flaws,
    })
}
