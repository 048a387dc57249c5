//! What the ledger tells of the parts.
ghost use Rattle.std.specs.Prelude.{◌≡◌, ℕ, List, IfOk, Some, Decides};
ghost use Rattle.entry.specs.Tells.{AllTold, Answered, Tells};
ghost use Rattle.ledgers.specs.Meaning.{Settled};
ghost use Rattle.ledgers.specs.Tables.{Cell};

use ledgers::Ledger;
use std::alloc::{AllocError, Global};

/// What a ledger tells of a part.
#[derive(Clone, Copy)]
pub struct Told {
    /// How many references there are to the part, or nothing where the ledger tells no number.
    pub references: Option<u16>,
    /// Whether the part is among the cells told 0: nobody points to it.
    pub bare: bool,
}

/// What a ledger answered.
#[derive(Drop)]
pub struct Answers {
    /// How much it had put off before it was settled.
    pub waiting: u16,
    /// What it tells of each part: of part `c` at `c - 1`.
    pub parts: Vec<Told>,
}

// Whether a cell is the first from itself on of which a settled ledger tells 0.
fn is_zero<L: Ledger>(ledger: &L, cell: u16) -> bool
    ensures { (t : List ℕ) → L.Ledger.ops.Agrees ledger.now t → Settled L.Ledger.ops ledger.now → Cell (L.Ledger.ops.cells ledger.now) cell → Decides result (L.Ledger.ops.tells ledger.now cell ≡ Some 0) }
{
    ledger.next_zero(cell) == Some(cell)
}

// What a settled ledger tells of the part in a cell.
fn tell<L: Ledger>(ledger: &L, cell: u16) -> Told
    ensures { Tells L.Ledger.ops ledger.now cell result }
{
    Told {
        references: ledger.number(cell),
        bare: is_zero(ledger, cell),
    }
}

// What a settled ledger tells of the parts in these cells.
fn tell_all<L: Ledger>(memory: Global, ledger: &L, cells: &[u16]) -> Result<Vec<Told>, AllocError>
    ensures { IfOk result (λ parts. AllTold L.Ledger.ops ledger.now cells.now parts.items) }
{
    let mut parts = Vec::new(memory);
    for cell in cells {
        parts.push(tell(ledger, *cell))?;
    }
    Ok(parts)
}

/// Asks the ledger how much waits, settles it, and asks it of the part in each of these cells.
pub fn ask<L: Ledger>(memory: Global, ledger: &mut L, cells: &[u16]) -> Result<Answers, AllocError>
    ensures { IfOk result (Answered L.Ledger.ops ledger.old ledger.new cells.now) }
{
    let waiting = ledger.waiting();
    ledger.settle();
    let parts = tell_all(memory, ledger, cells)?;
    Ok(Answers { waiting, parts })
}
