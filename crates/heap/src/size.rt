//! The call that gives a heap its cells.
ghost use Rattle.heap.specs.Calls.{Size, Unmoved};
ghost use Rattle.heap.specs.Keeps.{Begins};
ghost use Rattle.heap.specs.States.{state};

use crate::heap::Heap;
use ledgers::Ledger;
use refusals::Refusal;

impl Heap {
    /// Clears the ledger for `n` cells, and gives the heap as many, all free.
    pub fn size<L: Ledger>(&mut self, ledger: &mut L, n: u16) -> Result<(), Refusal>
        ensures does { Size L.Ledger.ops n (state self.old) ledger.old result (state self.new) ledger.new }
        ensures kept { Unmoved result self.old self.new }
        ensures begins { Begins L.Ledger.ops result (state self.new) ledger.new }
    {
        if !(1..=1024).contains(&n) {
            return Err(Refusal::Cells);
        }
        if self.graph.n != 0 {
            return Err(Refusal::Sized);
        }
        ledger.clear(n).map_err(|_| Refusal::Ledger)?;
        *self = Heap::sized(n);
        Ok(())
    }
}
