//! The bottom ledger: one count a cell, of any kind, in memory lent by the caller.
ghost use Rattle.std.specs.Prelude.{◌≡◌};
ghost use Rattle.counts.specs.Counting.{set_to};
ghost use Rattle.ledgers.specs.BottomLaws.{bottom_lawful};
ghost use Rattle.ledgers.specs.Bottoms.{bottom_ops, counts_of};

use super::ledger::{Ledger, TooManyCells};
use super::range::in_range;
use super::rows;
use counts::Count;

/// Follows every note at once, so that nothing ever waits.
#[derive(Drop)]
pub struct Bottom<'a, K: Count> {
    rows: &'a mut [K::Row],
    n: u16,
}

impl<'a, K: Count> Bottom<'a, K> {
    /// A ledger of no cells. The rows may hold any bytes: they are read from the first clear on.
    pub fn new(rows: &'a mut [K::Row]) -> Bottom<'a, K>
        ensures cells { result.n ≡ 0 }
        ensures memory { result.rows.now ≡ rows.old }
    {
        Bottom { rows, n: 0 }
    }
}

impl<'a, K: Count> Ledger for Bottom<'a, K> {
    const CEILING: u16 = K::CEILING;

    ghost ops = { bottom_ops K.Count.ceiling (λ l. l.n) (λ l. counts_of K.Count.reads l.rows.now) };

    ghost laws = { bottom_lawful K.Count.ceiling (λ l. l.n) (λ l. counts_of K.Count.reads l.rows.now) };

    fn top() -> u16 {
        K::top()
    }

    fn capacity(&self) -> u16 {
        self.rows.len().min(1024) as u16
    }

    fn cells(&self) -> u16 {
        self.n
    }

    fn waiting(&self) -> u16 {
        0
    }

    fn clear(&mut self, n: u16) -> Result<(), TooManyCells> {
        if n > self.capacity() {
            return Err(TooManyCells);
        }
        rows::renew::<K>(self.rows, usize::from(n));
        self.n = n;
        Ok(())
    }

    fn note(&mut self, slot: u16, old: u16, new: u16) {
        if old == new || !in_range(self.n, slot, old, new) {
            return;
        }
        rows::lower::<K>(self.rows, old);
        rows::raise::<K>(self.rows, new);
    }

    fn settle(&mut self) {}

    fn number(&self, c: u16) -> Option<u16> {
        if c > self.n {
            return None;
        }
        rows::read::<K>(self.rows, c)
    }

    fn next_zero(&self, c: u16) -> Option<u16> {
        rows::first_zero::<K>(self.rows, c, self.n)
    }

    fn recount(&mut self, c: u16, m: u16) {
        if c >= 1 && c <= self.n {
            let set = |_: K| -> K
                ensures { K.Count.tells result ≡ set_to K.Count.ceiling m }
            { K::set(m) };
            rows::change::<K, _>(self.rows, c, set);
        }
    }
}
