//! Tokens that are kept.
use heap::Token;

/// A token, and the hold and the cell that it names by the model.
pub struct Kept {
    pub token: Token,
    pub hold: usize,
    pub cell: u16,
}
