//! Maps of one bit a cell. Cells count from 1.
ghost use Rattle.std.specs.Prelude.{◌≡◌, ℕ, ◌<◌, ◌≤◌, true, List, count_by, replicate};
ghost use Rattle.heap.specs.Bits.{FirstClear, Put, flags, is_set};

use std::marker::Model;

/// A bit for each of the cells that a heap may have. A clause sees its bytes.
// The zero table has words of 64 bits, in which it finds the next; a heap's maps lie in bytes, as their format says.
#[derive(Drop)]
pub struct Bits {
    bytes: [u8; 128],
}

impl Model for Bits {
    ghost Value = { List ℕ };

    ghost view = { λ b. b.bytes };
}

impl Bits {
    /// All bits clear.
    pub(crate) fn new() -> Bits
        ensures { result ≡ replicate 128 0 }
    {
        Bits { bytes: [0; 128] }
    }

    pub(crate) fn test(&self, c: u16) -> bool
        requires { (0 < c) × (c ≤ 1024) }
        ensures { result ≡ is_set self.now c }
    {
        let k = (c - 1) % 8;
        self.bytes[usize::from(c - 1) / 8] & (1u8 << k) != 0
    }

    pub(crate) fn raise(&mut self, c: u16)
        requires { (0 < c) × (c ≤ 1024) }
        ensures { Put c true self.old self.new }
    {
        let k = (c - 1) % 8;
        self.bytes[usize::from(c - 1) / 8] |= 1u8 << k;
    }

    /// How many of the first `n` cells have their bit set.
    pub(crate) fn count(&self, n: u16) -> u16
        requires { n ≤ 1024 }
        ensures { result ≡ count_by (λ b. b) (flags n self.now) }
    {
        (1..n + 1).filter(|&c| self.test(c)).count() as u16
    }

    /// The first cell whose bit is clear, of those from `from` up to and without `end`.
    pub(crate) fn first_clear(&self, from: u16, end: u16) -> Option<u16>
        requires { (0 < from) × (end ≤ 1025) }
        ensures { FirstClear self.now from end result }
    {
        (from..end).find(|&c| !self.test(c))
    }
}
