//! What a queue does. When a note comes and 64 are there, all go down in order first.
ghost use Rattle.std.specs.Prelude.{◌≡◌, [], reverse};
ghost use Rattle.queue.specs.QueueLaws.{queue_lawful};
ghost use Rattle.queue.specs.Queues.{Passed, emptied, queue_ops, waiting_notes};

use super::queue::{Note, Notes, Queue};
use ledgers::{Ledger, TooManyCells, in_range};

const ROOM: usize = 64;

// Notes go to a ledger, in order.
fn note_all<L: Ledger>(ledger: &mut L, notes: &[Note])
    ensures { Passed L.Ledger.ops (reverse notes.now) ledger.old ledger.new }
{
    for note in notes {
        ledger.note(note.slot, note.old, note.new);
    }
}

impl<L: Ledger> Queue<L> {
    /// A queue in which nothing waits.
    pub fn new(below: L) -> Queue<L>
        ensures below { result.below ≡ below }
        ensures empty { waiting_notes result.inner ≡ [] }
    {
        let none = Note {
            slot: 0,
            old: 0,
            new: 0,
        };
        let inner = Notes {
            at: [none; ROOM],
            len: 0,
        };
        Queue { below, inner }
    }

    // Passes every note down, in order.
    fn pass(&mut self)
        ensures passed { Passed L.Ledger.ops (reverse (waiting_notes self.old.inner)) self.old.below self.new.below }
        ensures empty { self.new.inner ≡ emptied self.old.inner }
    {
        let held = self.inner.len.min(ROOM);
        note_all(&mut self.below, &self.inner.at[..held]);
        self.inner.len = 0;
    }
}

impl<L: Ledger> Ledger for Queue<L> {
    const CEILING: u16 = L::CEILING;

    ghost ops = { queue_ops L.Ledger.ops };

    ghost laws = { queue_lawful L.Ledger.laws };

    fn top() -> u16 {
        L::top()
    }

    fn capacity(&self) -> u16 {
        self.below.capacity().min(1024)
    }

    fn cells(&self) -> u16 {
        self.below.cells()
    }

    fn waiting(&self) -> u16 {
        (self.inner.len.min(ROOM) as u16).saturating_add(self.below.waiting())
    }

    fn clear(&mut self, n: u16) -> Result<(), TooManyCells> {
        self.below.clear(n)?;
        self.inner.len = 0;
        Ok(())
    }

    fn note(&mut self, slot: u16, old: u16, new: u16) {
        if !in_range(self.cells(), slot, old, new) {
            return;
        }
        if self.inner.len >= ROOM {
            self.pass();
        }
        self.inner.at[self.inner.len] = Note { slot, old, new };
        self.inner.len += 1;
    }

    fn settle(&mut self) {
        self.pass();
        self.below.settle();
    }

    // The log hands these on by the same lines: one layer for both would need a trait whose words are those of each again.
    fn number(&self, c: u16) -> Option<u16> {
        if self.waiting() != 0 {
            return None;
        }
        self.below.number(c)
    }

    fn next_zero(&self, c: u16) -> Option<u16> {
        if self.waiting() != 0 {
            return None;
        }
        self.below.next_zero(c)
    }

    fn recount(&mut self, c: u16, m: u16) {
        if self.waiting() == 0 {
            self.below.recount(c, m);
        }
    }
}
