//! A new heap, and what can be read of one.
ghost use Rattle.std.specs.Prelude.{◌≡◌, ◌<◌, ◌≤◌, IsTrue};
ghost use Rattle.heap.specs.Graph.{content};
ghost use Rattle.heap.specs.Looks.{is_cell, live_cells, look_root, look_slot, look_suspect, look_used};
ghost use Rattle.heap.specs.States.{sized, state};

use crate::bits::Bits;
use crate::graph::{Graph, slot_number};
use crate::heap::Heap;

impl Heap {
    /// A heap that isn't sized: it has no cells.
    pub fn new() -> Heap
        ensures { state result ≡ sized 0 }
    {
        Heap::sized(0)
    }

    /// `n` free cells, and nothing in any slot, root or hold.
    pub(crate) fn sized(n: u16) -> Heap
        requires { n ≤ 1024 }
        ensures { state result ≡ sized n }
    {
        let graph = Graph {
            n,
            slots: [0; 4096],
            roots: [0; 16],
            holds: [0; 16],
            used: Bits::new(),
            suspects: Bits::new(),
            last: 0,
        };
        Heap { graph }
    }

    /// How many cells the heap has.
    pub fn cells(&self) -> u16
        ensures { result ≡ (state self.now).graph.cells }
    {
        self.graph.n
    }

    /// What root `r` contains, if there is such a root.
    pub fn root(&self, r: u8) -> Option<u16>
        ensures { result ≡ look_root (state self.now) r }
    {
        self.graph.roots.get(usize::from(r)).copied()
    }

    /// What slot `f` of cell `c` contains, if there is such a slot.
    pub fn slot(&self, c: u16, f: u8) -> Option<u16>
        ensures { result ≡ look_slot (state self.now) c f }
    {
        (self.has_cell(c) && f < 4).then(|| self.content(c, f))
    }

    /// Whether cell `c` is in use, if there is such a cell.
    pub fn in_use(&self, c: u16) -> Option<bool>
        ensures { result ≡ look_used (state self.now) c }
    {
        self.has_cell(c).then(|| self.graph.used.test(c))
    }

    /// Whether cell `c` is a suspect, if there is such a cell.
    pub fn is_suspect(&self, c: u16) -> Option<bool>
        ensures { result ≡ look_suspect (state self.now) c }
    {
        self.has_cell(c).then(|| self.graph.suspects.test(c))
    }

    /// How many cells are in use.
    pub fn live(&self) -> u16
        ensures { result ≡ live_cells (state self.now) }
    {
        self.graph.used.count(self.cells())
    }

    /// Whether the heap has a cell `c`.
    fn has_cell(&self, c: u16) -> bool
        ensures { result ≡ is_cell (state self.now) c }
    {
        c > 0 && c <= self.cells()
    }

    /// What slot `f` of cell `c` contains.
    pub(crate) fn content(&self, c: u16, f: u8) -> u16
        requires cell { IsTrue (is_cell (state self.now) c) }
        requires slot { f < 4 }
        ensures cell { result ≤ (state self.now).graph.cells }
        ensures does { result ≡ content (state self.now).graph c f }
    {
        self.graph.slots[usize::from(slot_number(c, f))]
    }
}
