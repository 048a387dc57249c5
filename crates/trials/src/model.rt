//! What a heap is compared with: a plain model, written from the rules in words.
use super::calls::Call;
use heap::Refusal;
use std::alloc::{AllocError, Global};

/// What a call comes to: the cell that it gives out, if it gives one, or why it is refused.
pub type Answer = Result<Option<u16>, Refusal>;

/// The number of a cause by the rules in docs/HEAP.md, with which the heap's own is compared.
pub fn number(cause: Refusal) -> u8 {
    match cause {
        Refusal::Cells => 1,
        Refusal::Root => 2,
        Refusal::Slot => 3,
        Refusal::Memory => 4,
        Refusal::Unsized => 5,
        Refusal::Sized => 6,
        Refusal::Ledger => 7,
        Refusal::Full => 8,
        Refusal::Empty => 9,
        Refusal::Holds => 10,
        Refusal::Token => 11,
    }
}

// Where a content stands: a root, a hold, or a slot of a cell.
#[derive(Clone, Copy)]
enum Place {
    Root(u8),
    Hold(usize),
    Slot(u16, u8),
}

#[derive(Clone, Copy)]
struct Cell {
    slots: [u16; 4],
    is_used: bool,
    is_suspect: bool,
}

fn set_item(items: &mut [u16], i: usize, new: u16) {
    if let Some(item) = items.get_mut(i) {
        *item = new;
    }
}

/// Cells lie at their numbers, so that the first entry is of no cell.
#[derive(Drop)]
pub struct Model {
    /// The number of cells.
    pub n: u16,
    roots: [u16; 16],
    holds: [u16; 16],
    cells: Vec<Cell>,
    last: u16,
    /// How often the ledger has been cleared for this heap, or told of a slot that changed.
    pub told: u32,
}

impl Model {
    /// A model with no cells, and memory for as many as a heap may get.
    pub fn new(memory: Global) -> Result<Model, AllocError> {
        let free = Cell {
            slots: [0; 4],
            is_used: false,
            is_suspect: false,
        };
        Ok(Model {
            n: 0,
            roots: [0; 16],
            holds: [0; 16],
            cells: vec![in memory; free; 1025]?,
            last: 0,
            told: 0,
        })
    }

    fn cell(&self, c: u16) -> Option<Cell> {
        if c == 0 || c > self.n {
            return None;
        }
        self.cells.get(usize::from(c)).copied()
    }

    pub fn root(&self, r: u8) -> Option<u16> {
        self.roots.get(usize::from(r)).copied()
    }

    pub fn slot(&self, c: u16, f: u8) -> Option<u16> {
        self.cell(c)?.slots.get(usize::from(f)).copied()
    }

    pub fn in_use(&self, c: u16) -> Option<bool> {
        Some(self.cell(c)?.is_used)
    }

    pub fn is_suspect(&self, c: u16) -> Option<bool> {
        Some(self.cell(c)?.is_suspect)
    }

    pub fn live(&self) -> usize {
        let cells = self.cells.iter().take(1 + usize::from(self.n));
        cells.filter(|cell| cell.is_used).count()
    }

    /// How many slots contain `c`.
    pub fn holders(&self, c: u16) -> usize {
        let mut found = 0usize;
        for cell in self.cells.iter().take(1 + usize::from(self.n)) {
            let here = cell.slots.iter().filter(|content| **content == c).count();
            found = found.saturating_add(here);
        }
        found
    }

    fn content(&self, place: Place) -> u16 {
        let content = match place {
            Place::Root(r) => self.root(r),
            Place::Hold(k) => self.holds.get(k).copied(),
            Place::Slot(c, f) => self.slot(c, f),
        };
        content.unwrap_or(0)
    }

    // Goes on after the last given, and round from `n` to 1.
    fn next_free(&self) -> Option<u16> {
        (self.last.saturating_add(1)..=self.n)
            .chain(1..=self.last)
            .find(|c| self.in_use(*c) == Some(false))
    }

    /// The first hold that is empty.
    pub fn empty_hold(&self) -> Option<usize> {
        self.holds.iter().position(|cell| *cell == 0)
    }

    // The first rules that forbid a call with these roots and this slot.
    fn check(&self, roots: &[u8], f: u8) -> Result<(), Refusal> {
        if roots.iter().any(|r| *r > 15) {
            Err(Refusal::Root)
        } else if f > 3 {
            Err(Refusal::Slot)
        } else if self.n == 0 {
            Err(Refusal::Unsized)
        } else {
            Ok(())
        }
    }

    // The cell in a root that must not be empty.
    fn cell_in(&self, r: u8) -> Result<u16, Refusal> {
        match self.content(Place::Root(r)) {
            0 => Err(Refusal::Empty),
            cell => Ok(cell),
        }
    }

    fn tell(&mut self) {
        self.told = self.told.saturating_add(1);
    }

    fn set(&mut self, place: Place, new: u16) {
        match place {
            Place::Root(r) => set_item(&mut self.roots, usize::from(r), new),
            Place::Hold(k) => set_item(&mut self.holds, k, new),
            Place::Slot(c, f) => {
                if let Some(cell) = self.cells.get_mut(usize::from(c)) {
                    set_item(&mut cell.slots, usize::from(f), new);
                }
            }
        }
    }

    // A cell that is given up for another content becomes a suspect. The ledger is told what changed in a slot.
    fn put(&mut self, place: Place, new: u16) {
        let old = self.content(place);
        if old == new {
            return;
        }
        self.set(place, new);
        if let Place::Slot(_, _) = place {
            self.tell();
        }
        if let Some(cell) = self.cells.get_mut(usize::from(old)) {
            cell.is_suspect = true;
        }
    }

    fn size(&mut self, n: u16, room: u16) -> Result<(), Refusal> {
        if n == 0 || n > 1024 {
            return Err(Refusal::Cells);
        }
        if self.n != 0 {
            return Err(Refusal::Sized);
        }
        if n > room {
            return Err(Refusal::Ledger);
        }
        self.n = n;
        self.tell();
        Ok(())
    }

    fn give(&mut self, r: u8) -> Result<u16, Refusal> {
        self.check(&[r], 0)?;
        let c = self.next_free().ok_or(Refusal::Full)?;
        if let Some(cell) = self.cells.get_mut(usize::from(c)) {
            cell.is_used = true;
        }
        self.last = c;
        self.put(Place::Root(r), c);
        Ok(c)
    }

    fn load(&mut self, r: u8, s: u8, f: u8) -> Result<(), Refusal> {
        self.check(&[r, s], f)?;
        let cell = self.cell_in(s)?;
        self.put(Place::Root(r), self.content(Place::Slot(cell, f)));
        Ok(())
    }

    fn store(&mut self, r: u8, f: u8, s: u8) -> Result<(), Refusal> {
        self.check(&[r, s], f)?;
        let cell = self.cell_in(r)?;
        self.put(Place::Slot(cell, f), self.content(Place::Root(s)));
        Ok(())
    }

    fn hold(&mut self, r: u8) -> Result<(), Refusal> {
        self.check(&[r], 0)?;
        let cell = self.cell_in(r)?;
        let k = self.empty_hold().ok_or(Refusal::Holds)?;
        self.put(Place::Hold(k), cell);
        Ok(())
    }

    fn release(&mut self, hold: usize, cell: u16) -> Result<(), Refusal> {
        self.check(&[], 0)?;
        if self.content(Place::Hold(hold)) != cell {
            return Err(Refusal::Token);
        }
        self.put(Place::Hold(hold), 0);
        Ok(())
    }

    /// Plays a call, for a ledger with room for `room` cells.
    pub fn call(&mut self, call: Call, room: u16) -> Answer {
        match call {
            Call::Size { n } => self.size(n, room)?,
            Call::New { r } => return Ok(Some(self.give(r)?)),
            Call::Clear { r } => {
                self.check(&[r], 0)?;
                self.put(Place::Root(r), 0);
            }
            Call::Copy { r, s } => {
                self.check(&[r, s], 0)?;
                self.put(Place::Root(r), self.content(Place::Root(s)));
            }
            Call::Load { r, s, f } => self.load(r, s, f)?,
            Call::Store { r, f, s } => self.store(r, f, s)?,
            Call::Hold { r } => self.hold(r)?,
            Call::Release { hold, cell, .. } => self.release(hold, cell)?,
        }
        Ok(None)
    }
}
