//! What a ledger is compared with: a table that is counted anew for each answer, and a count for each cell.
ghost use Rattle.std.specs.Prelude.{◌≡◌, None, slice_index, slice_index_or};
ghost use Rattle.counts.specs.Counting.{lowered, raised, set_to};
ghost use Rattle.ledgers.specs.Tables.{holders};

use std::alloc::{AllocError, Global};

// What is told of a cell with one more holder.
fn up(told: Option<u16>, top: u16) -> Option<u16>
    ensures { result ≡ raised top told }
{
    told.filter(|m| *m < top).map(|m| m + 1)
}

// What is told of a cell with one less.
fn down(told: Option<u16>) -> Option<u16>
    ensures { result ≡ lowered told }
{
    told.map(|m| m.saturating_sub(1))
}

// What is told of a cell that is counted anew.
fn set(m: u16, top: u16) -> Option<u16>
    ensures { result ≡ set_to top m }
{
    (m <= top).then_some(m)
}

/// Four slots for each of `n` cells. Nothing is told of 0 and of `n + 1`, which are no cells, so that their counts are stuck.
#[derive(Drop)]
pub struct Plain {
    n: u16,
    top: u16,
    slots: Vec<u16>,
    counts: Vec<Option<u16>>,
}

impl Plain {
    /// A table of empty slots, for a ledger whose ceiling is `top`.
    pub fn new(heap: Global, n: u16, top: u16) -> Result<Plain, AllocError> {
        let mut counts = vec![in heap; None]?;
        counts.resize(1 + usize::from(n), Some(0))?;
        counts.push(None)?;
        Ok(Plain {
            n,
            top,
            slots: vec![in heap; 0; 4 * usize::from(n)]?,
            counts,
        })
    }

    pub fn cells(&self) -> u16
        ensures { result ≡ self.now.n }
    {
        self.n
    }

    pub fn slots(&self) -> u16 {
        self.n.saturating_mul(4)
    }

    pub fn content(&self, slot: u16) -> u16
        ensures { result ≡ slice_index self.now.slots.items slot }
    {
        self.slots.get(usize::from(slot)).copied().unwrap_or(0)
    }

    /// What a ledger tells in which nothing ever waits.
    pub fn count(&self, c: u16) -> Option<u16>
        ensures { result ≡ slice_index_or self.now.counts.items c None }
    {
        self.counts.get(usize::from(c)).copied().flatten()
    }

    fn set_count(&mut self, c: u16, told: Option<u16>) {
        if let Some(count) = self.counts.get_mut(usize::from(c)) {
            *count = told;
        }
    }

    /// The slot contains `new` from now on.
    pub fn put(&mut self, slot: u16, new: u16) {
        let old = self.content(slot);
        if old == new {
            return;
        }
        if let Some(content) = self.slots.get_mut(usize::from(slot)) {
            *content = new;
        }
        self.set_count(old, down(self.count(old)));
        self.set_count(new, up(self.count(new), self.top));
    }

    pub fn holders(&self, c: u16) -> usize
        ensures { result ≡ holders c self.now.slots.items }
    {
        self.slots.iter().filter(|content| **content == c).count()
    }

    /// Sets the count of `c` to its holders, and answers both. There are fewer slots than a count has room for.
    pub fn recount(&mut self, c: u16) -> (u16, Option<u16>) {
        let m = self.holders(c).min(65_535) as u16;
        let told = set(m, self.top);
        self.set_count(c, told);
        (m, told)
    }

    /// Whether a settled ledger may tell this of `c`.
    pub fn allows(&self, c: u16, told: Option<u16>) -> bool {
        let is_cell = c >= 1 && c <= self.n;
        match told {
            Some(m) => is_cell && usize::from(m) == self.holders(c),
            None => !is_cell || self.slots.len() > usize::from(self.top),
        }
    }
}
