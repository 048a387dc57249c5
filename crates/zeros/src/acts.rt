//! The zero table as a ledger.
ghost use Rattle.std.specs.Prelude.{◌≡◌, ℕ, false};
ghost use Rattle.zeros.specs.ZeroLaws.{zeros_lawful};
ghost use Rattle.zeros.specs.ZeroTables.{bit, zeros_ops};

use super::zeros::{Bits, Zeros};
use ledgers::{Ledger, TooManyCells, in_range};

impl<L: Ledger> Zeros<L> {
    /// No bit is set: the table is right from the first clear on.
    pub fn new(below: L) -> Zeros<L>
        ensures over { result.below ≡ below }
        ensures blank { (c : ℕ) → bit result.inner c ≡ false }
    {
        Zeros {
            below,
            inner: Bits::new(),
        }
    }
}

impl<L: Ledger> Ledger for Zeros<L> {
    const CEILING: u16 = L::CEILING;

    ghost ops = { zeros_ops L.Ledger.ops };

    ghost laws = { zeros_lawful L.Ledger.laws };

    fn top() -> u16 {
        L::top()
    }

    fn capacity(&self) -> u16 {
        self.below.capacity().min(1024)
    }

    fn cells(&self) -> u16 {
        self.below.cells()
    }

    fn waiting(&self) -> u16 {
        self.below.waiting()
    }

    // No ledger has room for more than 1,024 cells, so the refusals of the one below are those of this one.
    fn clear(&mut self, n: u16) -> Result<(), TooManyCells> {
        self.below.clear(n)?;
        self.inner.rebuild(&self.below);
        Ok(())
    }

    fn note(&mut self, slot: u16, old: u16, new: u16) {
        if !in_range(self.cells(), slot, old, new) {
            return;
        }
        let was_settled = self.waiting() == 0;
        self.below.note(slot, old, new);
        let is_settled = self.waiting() == 0;
        if was_settled && is_settled {
            // What is told of every other cell stays.
            self.inner.mark(&self.below, old);
            self.inner.mark(&self.below, new);
        } else if is_settled {
            self.inner.rebuild(&self.below);
        }
    }

    // The ledger below is asked even if it is settled: that changes nothing, and what it promises of a settle is passed on.
    fn settle(&mut self) {
        let was_settled = self.waiting() == 0;
        self.below.settle();
        if !was_settled {
            self.inner.rebuild(&self.below);
        }
    }

    fn number(&self, c: u16) -> Option<u16> {
        self.below.number(c)
    }

    fn next_zero(&self, c: u16) -> Option<u16> {
        if self.waiting() != 0 {
            return None;
        }
        let d = self.inner.first(c)?;
        if d <= self.cells() { Some(d) } else { None }
    }

    fn recount(&mut self, c: u16, m: u16) {
        if self.waiting() != 0 || c == 0 || c > self.cells() {
            return;
        }
        self.below.recount(c, m);
        self.inner.mark(&self.below, c);
    }
}
