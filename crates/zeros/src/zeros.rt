//! The zero table and its bits.

/// A bit for each of 1,024 cells. Cell `c` is bit `(c - 1) % 64` of word `(c - 1) / 64`.
#[derive(Drop)]
pub struct Bits {
    pub(crate) words: [u64; 16],
}

/// The ledger below, and the set of cells of which it tells 0.
#[derive(Drop)]
pub struct Zeros<L> {
    pub(crate) below: L,
    pub(crate) inner: Bits,
}
