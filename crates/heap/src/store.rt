//! The call that writes a slot.
ghost use Rattle.heap.specs.Calls.{Store, Unmoved};
ghost use Rattle.heap.specs.Keeps.{Keeps};
ghost use Rattle.heap.specs.States.{state};

use crate::checks::{check_slot, root_place};
use crate::graph::slot_number;
use crate::heap::Heap;
use ledgers::Ledger;
use refusals::Refusal;

impl Heap {
    /// Puts the content of root `s` into slot `f` of the cell in root `r`. Only a store that changes the slot is noted in the ledger.
    pub fn store<L: Ledger>(&mut self, ledger: &mut L, r: u8, f: u8, s: u8) -> Result<(), Refusal>
        ensures does { Store L.Ledger.ops r f s (state self.old) ledger.old result (state self.new) ledger.new }
        ensures kept { Unmoved result self.old self.new }
        ensures keeps { Keeps L.Ledger.ops (state self.old) ledger.old (state self.new) ledger.new }
    {
        let root = root_place(r)?;
        let from = root_place(s)?;
        check_slot(f)?;
        self.check_sized()?;
        let cell = self.cell_in(root)?;
        let old = self.content(cell, f);
        let new = self.graph.roots[from];
        if old != new {
            let slot = slot_number(cell, f);
            self.put_slot(usize::from(slot), new);
            ledger.note(slot, old, new);
        }
        Ok(())
    }
}
