//! The index: how a part is come by while a drawing is entered.
//!
//! A cell is come by only along slots. So a tree of cells of the same heap has every part within reach: each node has four
//! children, five levels lie below its topmost node, and the digits of a part's number, less 1, in base 4 lead to it.
//!
//! Heap and ledger stay two parameters: methods of a struct of both `&mut` would each have to promise that it keeps the same two.
ghost use Rattle.std.specs.Prelude.{◌≡◌, ◌+◌, ◌-◌, ◌*◌, ◌/◌, ◌%◌, ◌^◌, ◌<◌, ◌≤◌, length, IfOk, MatchOption, OnOk};
ghost use Rattle.entry.specs.Entries.{Added, Fetched, Forgot, Grown, OnlyRoot, Slotted, Together, cell_of, put_at};
ghost use Rattle.heap.specs.States.{state};

use crate::cells::Cells;
use crate::error::Cause;
use heap::{Heap, Refusal};
use ledgers::Ledger;

/// The roots that are used while a drawing is entered: what is written into a slot or read from one, the part whose slot that is,
/// the node that is walked to, and the topmost node of the index. A load between two of them goes to the lower: that the higher is not
/// empty shows that there are roots up to it.
pub(crate) const TARGET: u8 = 0;

pub(crate) const OWNER: u8 = 1;

pub(crate) const NODE: u8 = 2;

pub(crate) const TOP: u8 = 3;

// The level of the nodes whose slots contain the parts.
const LAST: u8 = 4;

// The slot of a node at a level, the topmost being 0, that leads to a part.
fn digit(part: u16, level: u8) -> u8
    requires { level ≤ 4 }
    ensures { result ≡ (part - 1) / 2 ^ (2 * (4 - level)) % 4 }
{
    ((part.saturating_sub(1) >> (2 * (LAST - level))) % 4) as u8
}

// Walks to the last node above a part.
fn seek<L: Ledger>(heap: &mut Heap, ledger: &L, r: u8, part: u16) -> Result<(), Refusal>
    ensures { OnOk result (OnlyRoot r (state heap.old) (state heap.new)) }
{
    heap.copy(ledger, r, TOP)?;
    for level in 0..LAST {
        heap.load(ledger, r, r, digit(part, level))?;
    }
    Ok(())
}

// Walks to a part, or to nothing where it is 0.
fn walk<L: Ledger>(heap: &mut Heap, ledger: &L, r: u8, part: u16) -> Result<(), Refusal>
    ensures { OnOk result (OnlyRoot r (state heap.old) (state heap.new)) }
{
    if part == 0 {
        return heap.clear(ledger, r);
    }
    seek(heap, ledger, r, part)?;
    heap.load(ledger, r, r, digit(part, LAST))
}

/// Puts the cell of a part into root `r`, or empties the root where the part is 0.
pub(crate) fn fetch<L: Ledger>(
    heap: &mut Heap,
    ledger: &L,
    cells: &Cells,
    r: u8,
    part: u16,
) -> Result<(), Cause>
    ensures { OnOk result (Fetched cells.now r part (state heap.old) (state heap.new)) }
{
    let cell = cells.cell_of(part).ok_or(Cause::Lost)?;
    walk(heap, ledger, r, part)?;
    if heap.root(r) != Some(cell) {
        return Err(Cause::Lost);
    }
    Ok(())
}

// Puts a new cell into slot `f` of the node in `NODE`.
fn hang<L: Ledger>(heap: &mut Heap, ledger: &mut L, f: u8) -> Result<u16, Refusal>
    ensures { IfOk result (λ cell. Added cell (state heap.old) (state heap.new) × Together L.Ledger.ops (state heap.old) ledger.old (state heap.new) ledger.new) }
{
    let cell = heap.new_cell(ledger, TARGET)?;
    heap.store(ledger, NODE, f, TARGET)?;
    Ok(cell)
}

// Goes from the node in `NODE` to the one in its slot `f`, which is made if it is missing.
fn descend<L: Ledger>(heap: &mut Heap, ledger: &mut L, f: u8) -> Result<(), Refusal>
    ensures { OnOk result (Grown (state heap.old) (state heap.new) × Together L.Ledger.ops (state heap.old) ledger.old (state heap.new) ledger.new) }
{
    heap.load(ledger, TARGET, NODE, f)?;
    if heap.root(TARGET) == Some(0) {
        let _node = hang(heap, ledger, f)?;
    }
    heap.copy(ledger, NODE, TARGET)
}

/// Gives a part its cell, which hangs in the index from now on.
pub(crate) fn add<L: Ledger>(heap: &mut Heap, ledger: &mut L, part: u16) -> Result<u16, Refusal>
    ensures { IfOk result (λ cell. Added cell (state heap.old) (state heap.new) × Together L.Ledger.ops (state heap.old) ledger.old (state heap.new) ledger.new) }
{
    heap.copy(ledger, NODE, TOP)?;
    for level in 0..LAST {
        descend(heap, ledger, digit(part, level))?;
    }
    hang(heap, ledger, digit(part, LAST))
}

/// Slot number `slot` of the drawing gets a part, or becomes empty where that is 0.
pub(crate) fn put<L: Ledger>(
    heap: &mut Heap,
    ledger: &mut L,
    cells: &Cells,
    slot: u16,
    content: u16,
) -> Result<(), Cause>
    ensures { OnOk result (Slotted (put_at cells.now (state heap.old).graph.slots slot content) (state heap.old) (state heap.new) × Together L.Ledger.ops (state heap.old) ledger.old (state heap.new) ledger.new) }
{
    fetch(heap, ledger, cells, OWNER, slot / 4 + 1)?;
    fetch(heap, ledger, cells, TARGET, content)?;
    heap.store(ledger, OWNER, (slot % 4) as u8, TARGET)?;
    Ok(())
}

/// Takes a part out of the index: the slot that contained it there becomes empty.
pub(crate) fn forget<L: Ledger>(
    heap: &mut Heap,
    ledger: &mut L,
    cells: &Cells,
    part: u16,
) -> Result<(), Cause>
    ensures { OnOk result (Forgot (cell_of cells.now part) (state heap.old) (state heap.new) × Together L.Ledger.ops (state heap.old) ledger.old (state heap.new) ledger.new) }
{
    let cell = cells.cell_of(part).ok_or(Cause::Lost)?;
    let f = digit(part, LAST);
    seek(heap, ledger, NODE, part)?;
    heap.load(ledger, TARGET, NODE, f)?;
    if heap.root(TARGET) != Some(cell) {
        return Err(Cause::Lost);
    }
    heap.clear(ledger, TARGET)?;
    heap.store(ledger, NODE, f, TARGET)?;
    Ok(())
}
