//! How much of an explanation is written.

/// How much of an explanation is written. The default is the short form.
#[derive(Clone, Copy, Debug, Default, PartialEq, Eq)]
pub struct Style {
    /// Whether values are shown whole, however long they are.
    pub full: bool,
    /// Whether the steps of each part of Next are counted, however many states there are.
    pub coverage: bool,
}
