//! The heap.
ghost use Rattle.std.specs.Prelude.{◌≤◌};
ghost use Rattle.heap.specs.Within.{Within};

use crate::graph::Graph;

// What a call keeps is a clause of each call and no ghost field: it ties the heap to the ledger that is passed, which may be a foreign one.

/// A heap. It never has more cells than its tables have room for, and contains no cell that it doesn't have.
#[derive(Drop)]
pub struct Heap {
    pub(crate) graph: Graph,
    ghost small: { graph.n ≤ 1024 },
    ghost slots: { Within graph.n graph.slots },
    ghost roots: { Within graph.n graph.roots },
    ghost holds: { Within graph.n graph.holds },
}
