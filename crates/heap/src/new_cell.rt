//! The call that gives out a cell.
ghost use Rattle.heap.specs.Calls.{FreeCell, New, Unmoved};
ghost use Rattle.heap.specs.Keeps.{Keeps};
ghost use Rattle.heap.specs.States.{state};

use crate::checks::root_place;
use crate::heap::Heap;
use ledgers::Ledger;
use refusals::Refusal;

impl Heap {
    /// Puts the first free cell after the last given into root `r`, and answers its number.
    pub fn new_cell<L: Ledger>(&mut self, ledger: &L, r: u8) -> Result<u16, Refusal>
        ensures does { New L.Ledger.ops r (state self.old) ledger.now result (state self.new) ledger.now }
        ensures kept { Unmoved result self.old self.new }
        ensures keeps { Keeps L.Ledger.ops (state self.old) ledger.now (state self.new) ledger.now }
    {
        let root = root_place(r)?;
        self.check_sized()?;
        let cell = self.next_free().ok_or(Refusal::Full)?;
        self.give(cell);
        self.put_root(root, cell);
        Ok(cell)
    }

    /// The first free cell after the last given, going on from `n` to 1.
    fn next_free(&self) -> Option<u16>
        ensures { FreeCell (state self.now) result }
    {
        let used = &self.graph.used;
        let end = self.graph.n + 1;
        used.first_clear(self.graph.last.min(self.graph.n) + 1, end)
            .or_else(|| used.first_clear(1, end))
    }
}

#[cfg(test)]
mod tests {
    use crate::heap::Heap;

    // No call frees a cell yet, so the search is tried on tables of its own.
    #[test]
    fn going_round(rt: HostRuntime) {
        let mut heap = Heap::sized(3);
        heap.graph.used.raise(1);
        heap.graph.used.raise(3);
        heap.graph.last = 3;
        assert_eq!(rt; heap.next_free(), Some(2));
        heap.graph.used.raise(2);
        assert_eq!(rt; heap.next_free(), None);
    }
}
