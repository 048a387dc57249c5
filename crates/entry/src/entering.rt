//! Entering a drawing.
ghost use Rattle.std.specs.Prelude.{◌≡◌, ℕ, ◌*◌, ◌≤◌, length, replicate, Some, IfOk, IfErr, MatchResult, OnOk};
ghost use Rattle.entry.specs.Entries.{Closed, Drawn, Entering, Forgotten, Grown, HeldBy, HoldsTop, OnlyRoots, Own, Slotted, Together, edited, referred};
ghost use Rattle.entry.specs.Located.{Blamed, InDrawing, Refusing, Unblamed, unready};
ghost use Rattle.heap.specs.Calls.{root};
ghost use Rattle.heap.specs.Keeps.{Held};
ghost use Rattle.heap.specs.States.{state};
ghost use Rattle.parts.specs.Building.{known};
ghost use Rattle.parts.specs.Text.{lines};

use crate::cells::Cells;
use crate::error::{Cause, EntryError, Place, Stop};
use crate::index::{NODE, OWNER, TARGET, TOP, add, fetch, forget, put};
use crate::locate::locate;
use crate::pointing::load_all;
use heap::{Heap, Refusal, Token};
use ledgers::Ledger;
use parts::{Drawing, Edit};
use std::alloc::Global;

/// How many cells the heap of a drawing has: as many as a heap can have.
const CELLS: u16 = 1024;

/// A drawing in a heap.
pub struct Entered {
    /// The cell of each part: that of part `c` at `c - 1`.
    pub cells: Vec<u16>,
    /// What the slots of the parts contain: slot `f` of part `c` is at `4 * (c - 1) + f`, with the number of a part, or 0.
    pub slots: Vec<u16>,
    /// The hold of the top part, which is the first. A drawing of no parts has none.
    pub token: Option<Token>,
}

// Gives the heap its cells, and the index its topmost node.
fn prepare<L: Ledger>(heap: &mut Heap, ledger: &mut L) -> Result<(), Refusal>
    ensures { MatchResult result (λ _. ((state heap.new).graph.holds ≡ replicate 16 0) × Held L.Ledger.ops (state heap.new) ledger.new) (λ refusal. unready L.Ledger.ops (state heap.old) ledger.old ≡ Some refusal) }
{
    heap.size(ledger, CELLS)?;
    let _top = heap.new_cell(ledger, TOP)?;
    Ok(())
}

// A cell for each part, in the order of their numbers.
fn add_parts<L: Ledger>(
    memory: Global,
    heap: &mut Heap,
    ledger: &mut L,
    count: u16,
) -> Result<Cells, Stop>
    requires { count ≤ 1024 }
    ensures { MatchResult result (λ cells. (length cells ≡ count) × Own cells (state heap.new) × Grown (state heap.old) (state heap.new) × Together L.Ledger.ops (state heap.old) ledger.old (state heap.new) ledger.new) (λ stop. (edits : ℕ) → InDrawing count edits stop) }
{
    let mut cells = Vec::new(memory);
    for part in 1..=count {
        let place = Place::Part(part);
        // Memory first: where there is none, the part isn't added to the heap.
        cells.reserve(1)?;
        let cell = add(heap, ledger, part).map_err(|refusal| Cause::Refused(refusal).at(place))?;
        cells.push_reserved(cell);
    }
    Ok(Cells::from_vec(cells))
}

// A store for each reference.
fn put_references<L: Ledger>(
    heap: &mut Heap,
    ledger: &mut L,
    cells: &Cells,
    slots: &[u16],
) -> Result<(), Stop>
    requires few { length slots.now ≤ 4096 }
    requires each { length slots.now ≡ 4 * length cells.now }
    ensures { MatchResult result (λ _. Slotted (referred cells.now 0 slots.now (state heap.old).graph.slots) (state heap.old) (state heap.new) × Together L.Ledger.ops (state heap.old) ledger.old (state heap.new) ledger.new) (λ stop. (edits : ℕ) → InDrawing (length cells.now) edits stop) }
{
    for (i, content) in slots.iter().enumerate() {
        if *content == 0 {
            continue;
        }
        let slot = i as u16;
        let place = Place::Reference(slot / 4 + 1);
        put(heap, ledger, cells, slot, *content).map_err(|cause| cause.at(place))?;
    }
    Ok(())
}

// A store for each edit.
fn put_edits<L: Ledger>(
    heap: &mut Heap,
    ledger: &mut L,
    cells: &Cells,
    edits: &[Edit],
) -> Result<(), Stop>
    ensures { MatchResult result (λ _. Slotted (edited cells.now edits.now (state heap.old).graph.slots) (state heap.old) (state heap.new) × Together L.Ledger.ops (state heap.old) ledger.old (state heap.new) ledger.new) (InDrawing (length cells.now) (length edits.now)) }
{
    for (i, edit) in edits.iter().enumerate() {
        let place = Place::Edit(i);
        put(heap, ledger, cells, edit.slot, edit.content).map_err(|cause| cause.at(place))?;
    }
    Ok(())
}

// Takes every part out of the index, so that only the drawing's own references are left to count.
fn forget_all<L: Ledger>(heap: &mut Heap, ledger: &mut L, cells: &Cells) -> Result<(), Stop>
    ensures { MatchResult result (λ _. Forgotten cells.now (length cells.now) (state heap.old) (state heap.new) × Together L.Ledger.ops (state heap.old) ledger.old (state heap.new) ledger.new) (λ stop. (edits : ℕ) → InDrawing (length cells.now) edits stop) }
{
    for part in 1..=cells.len() {
        let place = Place::Part(part);
        forget(heap, ledger, cells, part).map_err(|cause| cause.at(place))?;
    }
    Ok(())
}

// Empties the working roots but `OWNER`.
fn clear_roots<L: Ledger>(heap: &mut Heap, ledger: &L) -> Result<(), Refusal>
    ensures { OnOk result (OnlyRoots (state heap.old) (state heap.new) × (root (state heap.new) 1 ≡ root (state heap.old) 1)) }
{
    heap.clear(ledger, TOP)?;
    heap.clear(ledger, NODE)?;
    heap.clear(ledger, TARGET)
}

// Moves what is in `OWNER` into a hold.
fn hold_owner<L: Ledger>(heap: &mut Heap, ledger: &L) -> Result<Token, Refusal>
    ensures { IfOk result (λ token. HeldBy token (root (state heap.old) 1) (state heap.old) (state heap.new)) }
{
    let token = heap.hold(ledger, OWNER)?;
    // The heap has cells, since it has a hold.
    heap.clear(ledger, OWNER).unwrap();
    Ok(token)
}

// Holds the part in `OWNER`, if there is one, and empties every working root.
fn hold_top<L: Ledger>(heap: &mut Heap, ledger: &L) -> Result<Option<Token>, Refusal>
    ensures { IfOk result (λ token. HoldsTop token (root (state heap.old) 1) (state heap.old) (state heap.new)) }
{
    clear_roots(heap, ledger)?;
    if heap.root(OWNER) == Some(0) {
        return Ok(None);
    }
    Ok(Some(hold_owner(heap, ledger)?))
}

// Has the top part held in place of all that the index keeps within reach.
fn close<L: Ledger>(heap: &mut Heap, ledger: &mut L, cells: &Cells) -> Result<Option<Token>, Stop>
    ensures { MatchResult result (λ token. Closed cells.now token (state heap.old) (state heap.new) × Together L.Ledger.ops (state heap.old) ledger.old (state heap.new) ledger.new) (λ stop. (edits : ℕ) → InDrawing (length cells.now) edits stop) }
{
    // The index has to lead there one last time. Part 0 is none.
    let top = cells.len().min(1);
    fetch(heap, ledger, cells, OWNER, top).map_err(|cause| cause.at(Place::Part(top)))?;
    forget_all(heap, ledger, cells)?;
    hold_top(heap, ledger).map_err(|refusal| Cause::Refused(refusal).at(Place::Part(top)))
}

// Enters the parts, their references and the edits, and answers the cell of each part.
fn draw<L: Ledger>(
    memory: Global,
    heap: &mut Heap,
    ledger: &mut L,
    drawing: &Drawing,
    edits: &[Edit],
) -> Result<Cells, Stop>
    ensures { MatchResult result (λ cells. Drawn L.Ledger.ops drawing.now.slots.items edits.now cells (state heap.new) ledger.new) (Refusing L.Ledger.ops (length (known drawing.now)) (length edits.now) (state heap.old) ledger.old) }
{
    prepare(heap, ledger).map_err(|refusal| Cause::Refused(refusal).at(Place::Start))?;
    let cells = add_parts(memory, heap, ledger, drawing.names().len() as u16)?;
    put_references(heap, ledger, &cells, drawing.slots())?;
    put_edits(heap, ledger, &cells, edits)?;
    Ok(cells)
}

// Enters all, and reads back what each part points to.
fn enter_all<L: Ledger>(
    memory: Global,
    heap: &mut Heap,
    ledger: &mut L,
    drawing: &Drawing,
    edits: &[Edit],
) -> Result<Entered, Stop>
    ensures { MatchResult result (λ e. Entering L.Ledger.ops drawing.now.slots.items edits.now e (state heap.new) ledger.new) (Refusing L.Ledger.ops (length (known drawing.now)) (length edits.now) (state heap.old) ledger.old) }
{
    let cells = draw(memory, heap, ledger, drawing, edits)?;
    let slots = load_all(memory, heap, ledger, &cells)?;
    let token = close(heap, ledger, &cells)?;
    Ok(Entered {
        cells: cells.into_vec(),
        slots,
        token,
    })
}

/// Sizes the heap, and enters the drawing of a text and its edits: a cell for each part, a store for each reference and each edit.
/// Then the top part is held, every root is empty again, and only references of the drawing lead to a part.
pub fn enter<L: Ledger>(
    memory: Global,
    heap: &mut Heap,
    ledger: &mut L,
    text: &[u8],
    drawing: &Drawing,
    edits: &[Edit],
) -> Result<Entered, EntryError>
    ensures entered { IfOk result (λ e. Entering L.Ledger.ops drawing.now.slots.items edits.now e (state heap.new) ledger.new) }
    ensures blamed { IfErr result (Blamed (known drawing.now) (lines text.now)) }
    ensures unblamed { IfErr result (Unblamed L.Ledger.ops (known drawing.now) (length edits.now) (lines text.now) (state heap.old) ledger.old) }
{
    // No `map_err`: its closure would have to state again what `locate` promises.
    match enter_all(memory, heap, ledger, drawing, edits) {
        Ok(entered) => Ok(entered),
        Err(stop) => Err(locate(memory, text, drawing, stop)),
    }
}
