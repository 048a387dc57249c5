//! The calls that write a root from what the heap contains.
ghost use Rattle.heap.specs.Calls.{Clear, Copy, Load, Unmoved};
ghost use Rattle.heap.specs.Keeps.{Keeps};
ghost use Rattle.heap.specs.States.{state};

use crate::checks::{check_slot, root_place};
use crate::heap::Heap;
use ledgers::Ledger;
use refusals::Refusal;

impl Heap {
    /// Empties root `r`.
    pub fn clear<L: Ledger>(&mut self, ledger: &L, r: u8) -> Result<(), Refusal>
        ensures does { Clear L.Ledger.ops r (state self.old) ledger.now result (state self.new) ledger.now }
        ensures kept { Unmoved result self.old self.new }
        ensures keeps { Keeps L.Ledger.ops (state self.old) ledger.now (state self.new) ledger.now }
    {
        let root = root_place(r)?;
        self.check_sized()?;
        self.put_root(root, 0);
        Ok(())
    }

    /// Puts the content of root `s` in root `r`.
    pub fn copy<L: Ledger>(&mut self, ledger: &L, r: u8, s: u8) -> Result<(), Refusal>
        ensures does { Copy L.Ledger.ops r s (state self.old) ledger.now result (state self.new) ledger.now }
        ensures kept { Unmoved result self.old self.new }
        ensures keeps { Keeps L.Ledger.ops (state self.old) ledger.now (state self.new) ledger.now }
    {
        let to = root_place(r)?;
        let from = root_place(s)?;
        self.check_sized()?;
        let content = self.graph.roots[from];
        self.put_root(to, content);
        Ok(())
    }

    /// Puts slot `f` of the cell in root `s` into root `r`.
    pub fn load<L: Ledger>(&mut self, ledger: &L, r: u8, s: u8, f: u8) -> Result<(), Refusal>
        ensures does { Load L.Ledger.ops r s f (state self.old) ledger.now result (state self.new) ledger.now }
        ensures kept { Unmoved result self.old self.new }
        ensures keeps { Keeps L.Ledger.ops (state self.old) ledger.now (state self.new) ledger.now }
    {
        let to = root_place(r)?;
        let from = root_place(s)?;
        check_slot(f)?;
        self.check_sized()?;
        let cell = self.cell_in(from)?;
        let content = self.content(cell, f);
        self.put_root(to, content);
        Ok(())
    }
}
