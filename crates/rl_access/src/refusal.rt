//! Whether an operation is refused: by the first cause that holds, before it sends anything.
ghost use Rattle.std.specs.Prelude.{◌≡◌, ◌<◌, ◌≤◌, ◌^◌, ◌+◌, length, nat_lt, Ok, IfOk, IfSome, Some};
ghost use Rattle.rl_access.specs.Prelude.{IsPlaceFor, field_of, memory_size, only_where};
ghost use Rattle.rl_map.specs.Layout.{place_of};
ghost use Rattle.rl_model.specs.Chip.{HasItem};
ghost use Rattle.rl_access.specs.Rules.{placed, with_right, with_watch, by_backdoor, fitting, fitting_field};
ghost use Rattle.rl_access.specs.Rules.{at_location, at_locations, writable, item_size};

use crate::event::Refused;
use crate::model::Model;
use rl_map::has_right;
use rl_model::Item;
use rl_policy::mask;

/// The place of an operation that was granted so far, or the first cause of its refusal.
pub(crate) type Grant = Result<u32, Refused>;

/// The next condition of an operation that was granted so far.
pub(crate) fn only_where(grant: Grant, holds: bool, why: Refused) -> Grant
    ensures { result ≡ only_where grant holds why }
{
    match grant {
        Ok(place) if holds => Ok(place),
        Ok(_) => Err(why),
        Err(first) => Err(first),
    }
}

fn fits_bits(value: u64, width: u32) -> bool
    requires some { 1 ≤ width }
    requires most { width ≤ 64 }
    ensures { result ≡ nat_lt value (2 ^ width) }
{
    value <= mask(width)
}

impl Model {
    /// The place of an item in a map, or its first place.
    pub(crate) fn place_of(&self, item: Item, map: Option<u32>) -> Option<u32>
        requires { HasItem self.now.chip item }
        ensures place { result ≡ place_of self.now.layout item map }
        ensures there { IfSome result (IsPlaceFor self.now item) }
    {
        self.layout().place_of(item, map)
    }

    /// The place, where it has the right of the direction.
    pub(crate) fn way(&self, place: Option<u32>, write: bool) -> Grant
        requires { IfSome place (λ p. p < length self.now.layout.places) }
        ensures grant { result ≡ with_right self.now.layout write (placed place) }
        ensures place { IfOk result (λ p. place ≡ Some p) }
    {
        match place {
            None => Err(Refused::NotPlaced),
            Some(place) => {
                let right = has_right(self.layout().rights(place), write);
                only_where(Ok(place), right, Refused::NoRight)
            }
        }
    }

    /// The place for another master's access: a predictor watches it, and it has the right of the direction.
    pub(crate) fn watched_way(&self, place: Option<u32>, write: bool) -> Grant
        requires { IfSome place (λ p. p < length self.now.layout.places) }
        ensures grant { result ≡ with_right self.now.layout write (with_watch self.now.layout (placed place)) }
        ensures place { IfOk result (λ p. place ≡ Some p) }
    {
        match place {
            None => Err(Refused::NotPlaced),
            Some(place) => {
                let layout = self.layout();
                let right = has_right(layout.rights(place), write);
                let watched = layout.explicit(layout.port_of(place));
                let grant = only_where(Ok(place), watched, Refused::NotObserved);
                only_where(grant, right, Refused::NoRight)
            }
        }
    }

    /// Granted where the item has a backdoor.
    pub(crate) fn by_backdoor(&self, item: Item) -> Grant
        requires { HasItem self.now.chip item }
        ensures { result ≡ by_backdoor self.now item }
    {
        only_where(Ok(0), self.chip().backdoor(item), Refused::NoBackdoor)
    }

    /// Granted where the item's bytes hold the value.
    pub(crate) fn fitting(&self, item: Item, value: u64, grant: Grant) -> Grant
        requires { HasItem self.now.chip item }
        ensures grant { result ≡ fitting self.now item value grant }
        ensures before { IfOk result (λ p. grant ≡ Ok p) }
        ensures value { IfOk result (λ p. value < 256 ^ item_size self.now.chip item) }
    {
        only_where(grant, self.is_fitting(item, value), Refused::TooWide)
    }

    /// Whether the item's bytes hold the value.
    pub(crate) fn is_fitting(&self, item: Item, value: u64) -> bool
        requires { HasItem self.now.chip item }
        ensures { result ≡ nat_lt value (256 ^ item_size self.now.chip item) }
    {
        fits_bits(value, 8 * self.chip().bytes(item))
    }

    /// Granted where the field's bits hold the value.
    pub(crate) fn fitting_field(&self, field: u32, value: u64, grant: Grant) -> Grant
        requires { field < length self.now.chip.fields }
        ensures grant { result ≡ fitting_field self.now field value grant }
        ensures before { IfOk result (λ p. grant ≡ Ok p) }
        ensures value { IfOk result (λ p. value < 2 ^ (field_of self.now.chip field).shape.width) }
    {
        let fits = fits_bits(value, self.field(field).width);
        only_where(grant, fits, Refused::TooWide)
    }

    /// Granted where the memory has the location.
    pub(crate) fn at_location(&self, mem: u32, index: u64, grant: Grant) -> Grant
        requires { mem < length self.now.chip.mems }
        ensures grant { result ≡ at_location self.now mem index grant }
        ensures before { IfOk result (λ p. grant ≡ Ok p) }
        ensures index { IfOk result (λ p. index < memory_size self.now.chip mem) }
        ensures small { IfOk result (λ p. index < 65536) }
    {
        let inside = index < u64::from(self.chip().size(mem));
        only_where(grant, inside, Refused::OutOfRange)
    }

    /// Granted where the memory has all these locations.
    pub(crate) fn at_locations(&self, mem: u32, first: u64, count: u64, grant: Grant) -> Grant
        requires { mem < length self.now.chip.mems }
        ensures grant { result ≡ at_locations self.now mem first count grant }
        ensures before { IfOk result (λ p. grant ≡ Ok p) }
        ensures locations { IfOk result (λ p. first + count ≤ memory_size self.now.chip mem) }
        ensures small { IfOk result (λ p. first + count ≤ 65536) }
    {
        let size = u64::from(self.chip().size(mem));
        let inside = first <= size && count <= size - first;
        only_where(grant, inside, Refused::OutOfRange)
    }

    /// Granted where the memory may be written.
    pub(crate) fn writable(&self, mem: u32, grant: Grant) -> Grant
        requires { mem < length self.now.chip.mems }
        ensures grant { result ≡ writable self.now mem grant }
        ensures before { IfOk result (λ p. grant ≡ Ok p) }
    {
        only_where(grant, self.chip().writable(mem), Refused::NotWritable)
    }
}
