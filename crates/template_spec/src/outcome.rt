// The outcome of one template record.

/// What becomes of a template record, by those of its session and domain before it.
#[derive(Clone, Copy, Debug, PartialEq, Eq)]
pub enum Taken {
    /// A definition, and none of its ID was valid for its export time.
    New,
    /// A definition that is equal to the valid one.
    Same,
    /// A definition that differs from the valid one.
    Redefined,
    /// A withdrawal over TCP or in a file.
    Withdrawn,
    /// A withdrawal over UDP, which changes nothing (RFC 7011, section 8.4).
    Ignored,
}
