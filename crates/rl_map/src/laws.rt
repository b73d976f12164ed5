//! What holds of every path of maps and every item. These functions do nothing; their contracts are the
//! laws, which are this project's own.
ghost use Rattle.rl_map.specs.Laws.{EverySeatApart, EveryAddressApart};
ghost use Rattle.rl_map.specs.Laws.{EveryItemPartitioned, ByteAddressedAlike, EveryAddressCounted};

/// No two bytes of an item have one lane of one word; the bytes of one word have one address.
pub fn seats_stand_apart()
    ensures { EverySeatApart }
{}

/// Outside the FIFO kinds an address is that of one word of one location.
pub fn addresses_stand_apart()
    ensures { EveryAddressApart }
{}

/// Each byte of an item is at exactly one lane of one word.
pub fn words_are_a_partition()
    ensures { EveryItemPartitioned }
{}

/// Where no map counts words, the seats are those by byte addresses.
pub fn byte_addressed_paths_are_alike()
    ensures { ByteAddressedAlike }
{}

/// Between two maps an address is carried as counting says, unit by unit of the child.
pub fn addresses_are_counted()
    ensures { EveryAddressCounted }
{}
