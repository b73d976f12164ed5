// What a grading tells of its session.

/// What a grading reports of its session.
#[derive(Clone, Copy, Debug, PartialEq, Eq)]
pub struct Facts {
    /// Its mark, where it is reported.
    pub mark: Option<u64>,
    /// How many lines of its script ask for something.
    pub lines: u64,
    /// How many events these have.
    pub events: u64,
    /// How many bus items they send.
    pub items: u64,
}
