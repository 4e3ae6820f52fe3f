// The keys of an element table.

/// A key of an element table: that of the document, or one of a row.
#[derive(Clone, Copy, PartialEq, Eq)]
pub enum Key {
    /// The array of rows.
    Element,
    /// The enterprise number.
    Pen,
    Id,
    Prefix,
    Name,
    Type,
}
