// What the forms of an output are made of.
use crate::kind::TextKind;
use element_table::Elements;
use std::sync::Arc;

/// What the forms of an output are made of: what it prints, and the elements by which it names and writes values.
#[derive(Drop)]
pub struct Maker {
    pub kind: TextKind,
    pub elements: Arc<Elements>,
}
