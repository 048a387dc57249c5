//! Replaying: each slot's content is a note, and so is each edit.
ghost use Rattle.std.specs.Prelude.{IfOk};
ghost use Rattle.ledgers.specs.Meaning.{Settled};
ghost use Rattle.replay.specs.Replays.{Followed, Kept, Replaying, ToldNumbers, SomeTable, ZerosListed};

use super::replay::{ReplayError, Replayed};
use super::table::Table;
use ledgers::Ledger;
use parts::Edit;
use std::alloc::{AllocError, Global};

// No ledger has room for more than 1,024 cells.
const MOST_SLOTS: usize = 4096;

/// Clears the ledger, notes the content of each slot and then each edit, settles it, and asks it of every cell.
/// The slots are a table: four for each cell, each with 0 or a cell.
pub fn replay_table<L: Ledger>(
    heap: Global,
    ledger: &mut L,
    slots: &[u16],
    edits: &[Edit],
) -> Result<Replayed, ReplayError>
    ensures ledger { Replaying L.Ledger.ops slots.now edits.now ledger.old ledger.new result }
    ensures kept { IfOk result (Kept L.Ledger.ops.ceiling slots.now edits.now) }
{
    let n = follow(heap, ledger, slots, edits)?;
    let waiting = ledger.waiting();
    ledger.settle();
    let numbers = numbers(heap, ledger, n)?;
    let zeros = zeros(heap, ledger, n)?;
    Ok(Replayed {
        waiting,
        numbers,
        zeros,
    })
}

// Has the ledger follow the slots, from empty ones on, and then the edits. Answers the number of cells.
fn follow<L: Ledger>(
    heap: Global,
    ledger: &mut L,
    slots: &[u16],
    edits: &[Edit],
) -> Result<u16, ReplayError>
    ensures { Followed L.Ledger.ops slots.now edits.now ledger.old ledger.new result }
{
    if slots.len() % 4 != 0 {
        return Err(ReplayError::OutOfRange);
    }
    if slots.len() > MOST_SLOTS {
        return Err(ReplayError::TooManyCells);
    }
    let cells = (slots.len() / 4) as u16;
    ledger.clear(cells)?;
    let mut table = Table::empty(heap, cells)?;
    table.fill(ledger, slots)?;
    table.change(ledger, edits)?;
    Ok(cells)
}

// What a settled ledger tells of each cell.
fn numbers<L: Ledger>(heap: Global, ledger: &L, n: u16) -> Result<Vec<Option<u16>>, AllocError>
    requires follows { SomeTable L.Ledger.ops n ledger.now }
    requires settled { Settled L.Ledger.ops ledger.now }
    ensures { IfOk result (λ v. ToldNumbers L.Ledger.ops n ledger.now v.items) }
{
    (1..=n).map(|c| ledger.number(c)).collect(heap)
}

// The cells of which a settled ledger tells 0.
fn zeros<L: Ledger>(heap: Global, ledger: &L, n: u16) -> Result<Vec<u16>, AllocError>
    requires follows { SomeTable L.Ledger.ops n ledger.now }
    requires settled { Settled L.Ledger.ops ledger.now }
    ensures { IfOk result (λ v. ZerosListed L.Ledger.ops n ledger.now v.items) }
{
    let mut zeros = Vec::new(heap);
    let mut from = 1;
    // A loop: that `successors` ends is not known to its `collect`.
    while let Some(c) = ledger.next_zero(from) {
        zeros.push(c)?;
        from = c + 1;
    }
    Ok(zeros)
}
