//! The log and its entries.
pub mod acts;
pub mod sparse;

/// How many entries there is room for.
const ROOM: usize = 64;

/// The slots that can be logged: those of the most cells that a ledger has.
const SLOTS: usize = 4096;

/// What a slot contained when it was logged, and what it contains now.
#[derive(Clone, Copy)]
pub struct Entry {
    pub slot: u16,
    pub first: u16,
    pub latest: u16,
}

/// A sparse set: the entries are `at[..len]`, and `index[slot]` counts only where the entry there names that slot.
/// So the log is emptied by its length alone, and whatever the index then contains does no harm.
// A rule of the project: a layer has a plain table of a fixed size beside the ledger below, and one entry of it is lent to be changed.
#[derive(Drop)]
pub struct Entries {
    at: [Entry; ROOM],
    len: usize,
    index: [u8; SLOTS],
}

/// A coalescing log over the ledger `below`.
#[derive(Drop)]
pub struct Log<L> {
    below: L,
    inner: Entries,
}
