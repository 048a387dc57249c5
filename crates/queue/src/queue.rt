//! What a queue holds.

/// A note that waits: the slot, which contained `old`, contains `new`.
#[derive(Clone, Copy)]
pub struct Note {
    pub slot: u16,
    pub old: u16,
    pub new: u16,
}

/// The notes that wait, the oldest first, in the first `len` places.
// A rule of the project: a layer has a plain table of a fixed size beside the ledger below.
#[derive(Drop)]
pub struct Notes {
    pub(crate) at: [Note; 64],
    pub(crate) len: usize,
}

/// A ledger that holds up to 64 notes back from the one below.
#[derive(Drop)]
pub struct Queue<L> {
    pub(crate) below: L,
    pub(crate) inner: Notes,
}
