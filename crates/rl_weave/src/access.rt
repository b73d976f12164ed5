//! The accesses of a weave, and why one is refused.

/// A master's access to a whole register: a write of the value, or a read where there is none. `map` is the
/// map of the place to use, or none for the register's first place.
#[derive(Clone, Copy, Debug, PartialEq, Eq)]
pub struct Access {
    /// The register.
    pub reg: u32,
    /// The map of the place to use, if one is named.
    pub map: Option<u32>,
    /// The value of a write.
    pub value: Option<u64>,
}

/// Why an access isn't added to a weave. The causes are tested in the order of the variants, and are this
/// project's own.
#[derive(Clone, Copy, Debug, PartialEq, Eq)]
pub enum WeaveFault {
    /// The weave has 64 accesses.
    TooMany,
    /// The register has no place, or none in the map that was asked for.
    NotPlaced,
    /// The access goes through a root map that no predictor watches.
    NotObserved,
    /// The place lacks the right of the direction.
    NoRight,
    /// A value that the register can't hold.
    TooWide,
    /// Another access of the weave, whose number this is, has the register.
    SameRegister { other: u32 },
}
