//! The sparse set of entries.
ghost use Rattle.std.specs.Prelude.{◌≡◌, ◌<◌, [], ◌∷◌, ◌++◌};
ghost use Rattle.coalescing.specs.Logs.{entries, Found, renewed, size, Unlogged, WellFormed};

use super::{Entries, Entry, ROOM, SLOTS};

impl Entries {
    pub(super) fn none() -> Entries
        ensures { result.len ≡ 0 }
    {
        let blank = Entry {
            slot: 0,
            first: 0,
            latest: 0,
        };
        Entries {
            at: [blank; ROOM],
            len: 0,
            index: [0; SLOTS],
        }
    }

    /// How many entries there are. A length past the room, which no call leaves, counts as full.
    pub(super) fn size(&self) -> usize
        ensures { result ≡ size self.now }
    {
        self.len.min(ROOM)
    }

    /// The place of the slot's entry.
    pub(super) fn find(&self, slot: u16) -> Option<usize>
        requires { slot < 4096 }
        ensures { Found self.now slot result }
    {
        // Casts: with `usize::from` the proof didn't close, which no longer saw that the entry is the same.
        let i = self.index[slot as usize] as usize;
        if i < self.size() && self.at[i].slot == slot {
            Some(i)
        } else {
            None
        }
    }

    /// Changes the latest content of the entry at place `i`.
    pub(super) fn renew(&mut self, i: usize, new: u16)
        requires { i < size self.old }
        ensures { self.new ≡ renewed i new self.old }
    {
        let entry = &mut self.at[i];
        entry.latest = new;
    }

    /// Adds an entry of a slot that has none.
    pub(super) fn push(&mut self, entry: Entry)
        requires { (entry.slot < 4096) × (self.old.len < 64) }
        ensures added { entries self.new ≡ entries self.old ++ entry ∷ [] }
        ensures kept { WellFormed self.old → Unlogged entry.slot (entries self.old) → WellFormed self.new }
    {
        self.index[entry.slot as usize] = self.len as u8;
        self.at[self.len] = entry;
        self.len += 1;
    }
}
