// The last line of a session whose description is refused.
ghost use Rattle.std.specs.Prelude.{◌≡◌, ◌≢◌, ◌++◌, [], ◌∷◌, codes, map, Some, slice_index_or};
ghost use Rattle.rl_desc.specs.Keys.{key_name};
ghost use Rattle.rl_report.specs.Pieces.{PutsText};
ghost use Rattle.rl_session.specs.Refusals.{array_name, field_text, before_reason, bad_reason, model_reason, map_reason};
ghost use Rattle.rl_session.specs.Refusals.{refusal_text, flaw_at, description_refused_text};

use crate::digits::front;
use itoa::Buffer;
use rl_desc::{DescCause, DescFault, Key};
use rl_map::MapCause;
use rl_model::{Array, ModelCause, Spot};
use rl_policy::spell;
use rl_report::{Failed, Sink, put_all, put_pieces, text_beside};

fn array_name(array: Array) -> &'static [u8]
    ensures { result.now ≡ array_name array }
{
    text_beside! {
        array: Array;
        Block b"block", File b"file", Reg b"reg", Mem b"mem", Map b"map", Place b"place", Flaw b"flaw"
    }
}

// Writes the field, and that the reason follows.
fn put_field<K: Sink>(sink: &mut K, field: Option<u32>) -> Result<(), Failed>
    ensures { PutsText K.Sink sink.old sink.new (field_text field ++ codes ": ") result }
{
    let Some(field) = field else {
        return put_all(sink, b": ");
    };
    let mut number = Buffer::new();
    let pieces: [&[u8]; 3] = [
        b" field ",
        number.format(u64::from(field) + 1).as_bytes(),
        b": ",
    ];
    put_pieces(sink, &pieces)
}

// Writes that the description is refused, and where.
fn put_where<K: Sink>(sink: &mut K, spot: Option<Spot>) -> Result<(), Failed>
    ensures { PutsText K.Sink sink.old sink.new (before_reason spot) result }
{
    let Some(spot) = spot else {
        return put_all(sink, b"refused description: ");
    };
    let mut row = Buffer::new();
    let pieces: [&[u8]; 4] = [
        b"refused description ",
        array_name(spot.array),
        b" ",
        row.format(u64::from(spot.row) + 1).as_bytes(),
    ];
    put_pieces(sink, &pieces)?;
    put_field(sink, spot.field)
}

fn put_refusal<K: Sink>(sink: &mut K, spot: Option<Spot>, reason: &[&[u8]]) -> Result<(), Failed>
    ensures { PutsText K.Sink sink.old sink.new (refusal_text spot (map (λ piece. piece.now) reason.now)) result }
{
    put_where(sink, spot)?;
    put_pieces(sink, reason)?;
    put_all(sink, b"\n")
}

fn put_plain<K: Sink>(sink: &mut K, spot: Option<Spot>, reason: &[u8]) -> Result<(), Failed>
    ensures { PutsText K.Sink sink.old sink.new (refusal_text spot (reason.now ∷ [])) result }
{
    let pieces: [&[u8]; 1] = [reason];
    put_refusal(sink, spot, &pieces)
}

// A reason that names a key.
fn put_key<K: Sink>(
    sink: &mut K,
    spot: Option<Spot>,
    reason: &'static [u8],
    key: Key,
) -> Result<(), Failed>
    ensures { PutsText K.Sink sink.old sink.new (refusal_text spot (reason.now ∷ key_name key ∷ [])) result }
{
    let pieces: [&[u8]; 2] = [reason, key.name().as_bytes()];
    put_refusal(sink, spot, &pieces)
}

fn put_bad<K: Sink>(sink: &mut K, cause: DescCause, spot: Option<Spot>) -> Result<(), Failed>
    ensures { PutsText K.Sink sink.old sink.new (refusal_text spot (bad_reason cause)) result }
{
    match cause {
        DescCause::Text => put_plain(sink, spot, b"not toml"),
        DescCause::UnknownKey => put_plain(sink, spot, b"unknown key"),
        DescCause::MissingKey { key } => put_key(sink, spot, b"missing key ", key),
        DescCause::WrongType { key } => put_key(sink, spot, b"wrong type of ", key),
        DescCause::BadValue { key } => put_key(sink, spot, b"bad value of ", key),
    }
}

fn model_reason(cause: ModelCause) -> &'static [u8]
    ensures { result.now ≡ model_reason cause }
{
    text_beside! {
        cause: ModelCause;
        TooMany b"too many", NoSuchParent b"no such parent", BadName b"bad name",
        DuplicateName b"duplicate name", TooDeep b"too deep", BadWidth b"bad width", BadSize b"bad size",
        FieldOutside b"field outside", FieldsOverlap b"fields overlap", ResetTooWide b"reset too wide"
    }
}

fn put_shared<K: Sink>(sink: &mut K, spot: Spot, address: u64, other: u32) -> Result<(), Failed>
    ensures { PutsText K.Sink sink.old sink.new
        (refusal_text (Some spot) (map_reason (MapCause.SharedAddress address other))) result }
{
    let mut digits = [0u8; 16];
    let len = spell(&mut digits, address);
    let mut place = Buffer::new();
    let pieces: [&[u8]; 4] = [
        b"shared address 0x",
        front(&digits, len),
        b" with place ",
        place.format(u64::from(other) + 1).as_bytes(),
    ];
    put_refusal(sink, Some(spot), &pieces)
}

// The reason, or what it begins with where two places share an address.
fn map_reason(cause: MapCause) -> &'static [u8]
    ensures { result.now ≡ slice_index_or (map_reason cause) 0 [] }
{
    text_beside! {
        cause: MapCause;
        TooMany b"too many", BadName b"bad name", DuplicateName b"duplicate name", NoSuchMap b"no such map",
        TooDeep b"too deep", BadBytes b"bad bytes", NoSuchAdapter b"no such adapter", NoSuchItem b"no such item",
        PlacedTwice b"placed twice", MemInFifo b"memory in fifo", AddressOverflow b"address overflow",
        Unaligned b"unaligned", SharedAddress {..} b"shared address 0x"
    }
}

fn put_map_refused<K: Sink>(sink: &mut K, cause: MapCause, spot: Spot) -> Result<(), Failed>
    ensures { PutsText K.Sink sink.old sink.new (refusal_text (Some spot) (map_reason cause)) result }
{
    match cause {
        MapCause::SharedAddress { address, other } => put_shared(sink, spot, address, other),
        _ => put_plain(sink, Some(spot), map_reason(cause)),
    }
}

fn flaw_at(row: u32) -> Option<Spot>
    ensures { result ≡ flaw_at row }
{
    Some(Spot {
        array: Array::Flaw,
        row,
        field: None,
    })
}

/// Writes that the description is refused. Want of memory has no line.
pub fn put_description_refused<K: Sink>(sink: &mut K, fault: &DescFault) -> Result<(), Failed>
    requires { fault.now ≢ DescFault.Memory }
    ensures { PutsText K.Sink sink.old sink.new (description_refused_text fault.now) result }
{
    match *fault {
        DescFault::Bad { cause, spot } => put_bad(sink, cause, spot),
        DescFault::Model { cause, spot } => put_plain(sink, Some(spot), model_reason(cause)),
        DescFault::Map { cause, spot } => put_map_refused(sink, cause, spot),
        DescFault::TooManyFlaws { row } => put_plain(sink, flaw_at(row), b"too many"),
        DescFault::Flaw { row } => put_plain(sink, flaw_at(row), b"bad flaw"),
        DescFault::Memory => Ok(()),
    }
}
