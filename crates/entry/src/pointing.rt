//! What the parts point to, by load.
ghost use Rattle.std.specs.Prelude.{◌≡◌, ℕ, ◌*◌, ◌<◌, ◌≤◌, length, IfOk, MatchResult};
ghost use Rattle.entry.specs.Entries.{OnlyRoots, Pointing, Points, cell_of};
ghost use Rattle.entry.specs.Located.{InDrawing};
ghost use Rattle.heap.specs.States.{state};

use crate::cells::Cells;
use crate::error::{Cause, Place, Stop};
use crate::index::{OWNER, TARGET, fetch};
use heap::Heap;
use ledgers::Ledger;
use std::alloc::Global;

// The part in slot number `slot` of the drawing.
fn load_part<L: Ledger>(heap: &mut Heap, ledger: &L, cells: &Cells, slot: u16) -> Result<u16, Cause>
    ensures { IfOk result (λ part. Points cells.now (state heap.old).graph.slots slot part × OnlyRoots (state heap.old) (state heap.new)) }
{
    fetch(heap, ledger, cells, OWNER, slot / 4 + 1)?;
    heap.load(ledger, TARGET, OWNER, (slot % 4) as u8)?;
    let cell = heap.root(TARGET).ok_or(Cause::Lost)?;
    cells.part_in(cell).ok_or(Cause::Lost)
}

/// The parts in the slots of a drawing, by their numbers: slot `f` of part `c` is at `4 * (c - 1) + f`.
pub(crate) fn load_all<L: Ledger>(
    memory: Global,
    heap: &mut Heap,
    ledger: &L,
    cells: &Cells,
) -> Result<Vec<u16>, Stop>
    ensures { MatchResult result (λ parts. Pointing cells.now (state heap.old).graph.slots (4 * length cells.now) parts.items × OnlyRoots (state heap.old) (state heap.new)) (λ stop. (edits : ℕ) → InDrawing (length cells.now) edits stop) }
{
    let mut parts = Vec::new(memory);
    for slot in 0..4 * cells.len() {
        let place = Place::Reference(slot / 4 + 1);
        parts.reserve(1)?;
        let part = load_part(heap, ledger, cells, slot).map_err(|cause| cause.at(place))?;
        parts.push_reserved(part);
    }
    Ok(parts)
}
