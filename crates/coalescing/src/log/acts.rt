//! The log as a ledger.
ghost use Rattle.std.specs.Prelude.{◌≡◌, ◌<◌, ◌↔◌, IsTrue};
ghost use Rattle.coalescing.specs.LogLaws.{log_lawful};
ghost use Rattle.coalescing.specs.Logs.{Added, emptied, entries, log_ops, Passed, Sent, Takes, Unlogged, WellFormed};

use super::{Entries, Entry, Log, ROOM, SLOTS};
use ledgers::{Ledger, TooManyCells, in_range};

/// Passes an entry down as one note, or not at all if its slot contains again what it contained first.
fn send<L: Ledger>(below: &mut L, entry: Entry)
    ensures { Sent L.Ledger.ops entry below.old below.new }
{
    if entry.first != entry.latest {
        below.note(entry.slot, entry.first, entry.latest);
    }
}

/// Passes entries down, in order.
fn send_all<L: Ledger>(below: &mut L, entries: &[Entry])
    ensures { Passed L.Ledger.ops entries.now below.old below.new }
{
    for entry in entries {
        send(below, *entry);
    }
}

impl<L: Ledger> Log<L> {
    /// A log with no entries.
    pub fn new(below: L) -> Log<L>
        ensures below { result.below ≡ below }
        ensures none { result.inner.len ≡ 0 }
    {
        Log {
            below,
            inner: Entries::none(),
        }
    }

    /// Whether the log takes a note. A slot past the index is out of range too.
    fn takes(&self, slot: u16, old: u16, new: u16) -> bool
        ensures { IsTrue result ↔ Takes (L.Ledger.ops.cells self.now.below) slot old new }
    {
        usize::from(slot) < SLOTS && in_range(self.cells(), slot, old, new)
    }

    /// Passes every entry down, in order of entry.
    fn pass(&mut self)
        ensures passed { Passed L.Ledger.ops (entries self.old.inner) self.old.below self.new.below }
        ensures none { self.new.inner ≡ emptied self.old.inner }
    {
        let size = self.inner.size();
        send_all(&mut self.below, &self.inner.at[..size]);
        self.inner.len = 0;
    }

    /// Logs a slot that has no entry. A full log goes down first.
    fn add(&mut self, entry: Entry)
        requires { entry.slot < 4096 }
        ensures added { Added L.Ledger.ops entry self.old self.new }
        ensures kept { WellFormed self.old.inner → Unlogged entry.slot (entries self.old.inner) → WellFormed self.new.inner }
    {
        if self.inner.len >= ROOM {
            self.pass();
        }
        self.inner.push(entry);
    }
}

impl<L: Ledger> Ledger for Log<L> {
    const CEILING: u16 = L::CEILING;

    ghost ops = { log_ops L.Ledger.ops };

    ghost laws = { log_lawful L.Ledger.laws };

    fn top() -> u16 {
        L::top()
    }

    fn capacity(&self) -> u16 {
        self.below.capacity().min(1024)
    }

    fn cells(&self) -> u16 {
        self.below.cells()
    }

    fn waiting(&self) -> u16 {
        (self.inner.size() as u16).saturating_add(self.below.waiting())
    }

    fn clear(&mut self, n: u16) -> Result<(), TooManyCells> {
        self.below.clear(n)?;
        self.inner.len = 0;
        Ok(())
    }

    fn note(&mut self, slot: u16, old: u16, new: u16) {
        if !self.takes(slot, old, new) {
            return;
        }
        match self.inner.find(slot) {
            Some(i) => self.inner.renew(i, new),
            None => self.add(Entry {
                slot,
                first: old,
                latest: new,
            }),
        }
    }

    fn settle(&mut self) {
        self.pass();
        self.below.settle();
    }

    fn number(&self, c: u16) -> Option<u16> {
        if self.waiting() != 0 {
            return None;
        }
        self.below.number(c)
    }

    fn next_zero(&self, c: u16) -> Option<u16> {
        if self.waiting() != 0 {
            return None;
        }
        self.below.next_zero(c)
    }

    fn recount(&mut self, c: u16, m: u16) {
        if self.waiting() == 0 {
            self.below.recount(c, m);
        }
    }
}
