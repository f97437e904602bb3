//! The steps of a change.

/// A step of a change.
#[derive(Clone, Copy)]
pub(crate) enum Step {
    /// The set as it is now is kept.
    Kept,
    /// The last tuple came in.
    Added,
    /// The tuple of this number went out.
    Dropped(usize),
}
