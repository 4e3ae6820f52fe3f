// The members of a line.
use crate::piece::Piece;
use text_spec::ElementType;

/// Octets, and behind them the value of a field, by the number of that field and the type that the value is written by.
#[derive(Drop)]
pub struct Member {
    pub literal: Piece,
    pub kind: Option<ElementType>,
    pub field: usize,
}
