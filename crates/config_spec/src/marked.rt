// A text with its mark.
use col_base::{Octets, Text};

/// A text of a description, and the mark by which it is the same as another: for a name or a path itself.
#[derive(Drop)]
pub struct Marked {
    pub text: Text,
    pub mark: Octets,
}
