//! What can be read of a heap and its ledger, compared with the model. Each number is read too that is just out of range.
use super::model::Model;
use heap::Heap;
use ledgers::Ledger;

/// How many answers of a heap with `n` cells are compared.
pub fn heap_answers(n: u16) -> u32 {
    33 + 7 * u32::from(n)
}

pub fn heap_agrees(heap: &Heap, model: &Model) -> bool {
    heap.cells() == model.n
        && usize::from(heap.live()) == model.live()
        && (0..=16).all(|r| heap.root(r) == model.root(r))
        && (0..=model.n.saturating_add(1)).all(|c| cell_agrees(heap, model, c))
}

fn cell_agrees(heap: &Heap, model: &Model, c: u16) -> bool {
    heap.in_use(c) == model.in_use(c)
        && heap.is_suspect(c) == model.is_suspect(c)
        && (0..=4).all(|f| heap.slot(c, f) == model.slot(c, f))
}

/// How many answers of a ledger of `n` cells are compared.
pub fn ledger_answers(n: u16) -> u32 {
    6 + 2 * u32::from(n)
}

/// Whether a settled ledger tells what it has to.
pub fn ledger_agrees<L: Ledger>(ledger: &L, model: &Model) -> bool {
    // The last cell told 0 so far, from the end on.
    let mut next = None;
    ledger.waiting() == 0
        && ledger.cells() == model.n
        && (0..=model.n.saturating_add(1)).rev().all(|c| {
            let told = ledger.number(c);
            if told == Some(0) {
                next = Some(c);
            }
            is_right(told, c, model, L::top()) && ledger.next_zero(c) == next
        })
}

// A told number is that of the slots that hold the cell. One is told of every cell where the ceiling, `top`, is at least the number of slots.
fn is_right(told: Option<u16>, c: u16, model: &Model, top: u16) -> bool {
    let is_cell = model.in_use(c).is_some();
    match told {
        Some(m) => is_cell && usize::from(m) == model.holders(c),
        None => !is_cell || model.n.saturating_mul(4) > top,
    }
}
