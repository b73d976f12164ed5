//! The chosen bytes of an item in the lanes of a bus word.
ghost use Rattle.std.specs.Prelude.{◌≡◌, ◌<◌, ◌&&◌, slice_index, IsTrue};
ghost use Rattle.rl_policy.specs.Bits.{bit};
ghost use Rattle.rl_bus.specs.Spread.{AreInCell};
ghost use Rattle.rl_map.specs.Words.{lanes_of};
ghost use Rattle.rl_split.specs.Access.{lanes_for};

use rl_bus::Lanes;
use rl_map::Word;

fn is_set(mask: u8, place: u32) -> bool
    requires { place < 8 }
    ensures { result ≡ bit mask place }
{
    (mask >> place) & 1 == 1
}

/// A lane carries a chosen byte.
fn is_chosen(word: &Word, chosen: u8, lane: u32) -> bool
    requires lane { lane < 8 }
    requires bytes { AreInCell (lanes_of word.now) }
    ensures { result ≡ (bit word.now.lanes lane && bit chosen (slice_index word.now.bytes lane)) }
{
    is_set(word.lanes, lane) && is_set(chosen, u32::from(word.bytes[lane as usize]))
}

/// The lanes of a word that carry a chosen byte.
///
/// It is inlined so that neither the word nor its lanes are put down in memory.
#[inline(always)]
pub(crate) fn lanes_for(word: &Word, chosen: u8) -> Lanes
    requires { AreInCell (lanes_of word.now) }
    ensures { result ≡ lanes_for chosen word.now }
{
    let mut enabled = 0;
    for lane in 0..8 {
        if is_chosen(word, chosen, lane) {
            enabled += 1 << lane;
        }
    }
    Lanes {
        enabled,
        bytes: word.bytes,
    }
}

/// All lanes of a word.
#[inline(always)]
pub(crate) fn lanes_of(word: &Word) -> Lanes
    ensures { result ≡ lanes_of word.now }
{
    Lanes {
        enabled: word.lanes,
        bytes: word.bytes,
    }
}

/// The lanes of a word that carry a chosen byte, where it is known whether all bytes of the item are chosen.
#[inline(always)]
pub(crate) fn lanes_sent(word: &Word, chosen: u8, whole: bool) -> Lanes
    requires bytes { AreInCell (lanes_of word.now) }
    requires whole { IsTrue whole → lanes_of word.now ≡ lanes_for chosen word.now }
    ensures { result ≡ lanes_for chosen word.now }
{
    if whole {
        lanes_of(word)
    } else {
        lanes_for(word, chosen)
    }
}
