// Why no more could be opened.

/// Why no more of a list could be opened.
#[derive(Clone, Copy, Debug, PartialEq, Eq)]
pub enum Stopped {
    /// The one of this index could not.
    At(usize),
    /// Memory was wanted.
    Memory,
}
