// How far a grading is.

/// A meter that is shown how far a grading is. The grading is the same whatever it does.
pub trait Meter {
    /// So many flaws have been tried so far.
    fn show(&mut self, flaws: u64);
}
