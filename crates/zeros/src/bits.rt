//! The bits of a zero table. A number that is none of its 1,024 cells changes nothing.
ghost use Rattle.std.specs.Prelude.{◌≡◌, ℕ, ◌<◌, false};
ghost use Rattle.zeros.specs.ZeroTables.{bit, FirstPlace, FirstSet, Marked, Put, Rebuilt};

use super::zeros::Bits;
use ledgers::Ledger;

// The first set bit of a word from place `from` on.
fn first_in(word: u64, from: u32) -> Option<u32>
    requires { from < 64 }
    ensures { FirstPlace word from result }
{
    let rest = word >> from;
    if rest == 0 {
        None
    } else {
        Some(from + rest.trailing_zeros())
    }
}

impl Bits {
    /// No bit is set.
    pub(crate) fn new() -> Bits
        ensures { (c : ℕ) → bit result c ≡ false }
    {
        Bits { words: [0; 16] }
    }

    /// Makes the bit of `c` what `on` says.
    pub(crate) fn put(&mut self, c: u16, on: bool)
        ensures { Put c on self.old self.new }
    {
        if c == 0 || c > 1024 {
            return;
        }
        // A cast: with `usize::from` the proof didn't close, which no longer saw that the word is the same.
        let i = (c as usize - 1) / 64;
        let mask = 1u64 << ((c - 1) % 64);
        if on {
            self.words[i] |= mask;
        } else {
            self.words[i] &= !mask;
        }
    }

    /// The first cell from `c` on whose bit is set.
    pub(crate) fn first(&self, c: u16) -> Option<u16>
        ensures { FirstSet self.now c result }
    {
        let from = c.saturating_sub(1) as usize;
        // Tried as a `find_map` too, of which it wasn't proved that it finds the first.
        for i in from / 64..16 {
            // Only in the first word are there bits to pass over.
            let skip = from.saturating_sub(64 * i) as u32;
            if let Some(place) = first_in(self.words[i], skip) {
                return Some((64 * i + place as usize + 1) as u16);
            }
        }
        None
    }

    /// Brings the bit of `c` up to date.
    pub(crate) fn mark<L: Ledger>(&mut self, below: &L, c: u16)
        ensures { Marked L.Ledger.ops below.now c self.old self.new }
    {
        let zero = below.number(c) == Some(0);
        self.put(c, zero);
    }

    /// Brings every bit up to date.
    pub(crate) fn rebuild<L: Ledger>(&mut self, below: &L)
        ensures { Rebuilt L.Ledger.ops below.now self.new }
    {
        for c in 1..=below.cells().min(1024) {
            self.mark(below, c);
        }
    }
}
