//! All that can be seen of a ledger.
ghost use Rattle.std.specs.Prelude.{◌≡◌, None, map, slice_index_or};
ghost use Rattle.ledgers.specs.Rows.{FirstZero};

use ledgers::Ledger;
use std::alloc::{AllocError, Global};

/// What a ledger tells of a cell.
#[derive(Clone, Copy)]
pub struct Told {
    pub number: Option<u16>,
    pub next_zero: Option<u16>,
}

/// What a ledger answers. `told` begins with what is told of 0, and ends with what is told of the number after the last cell.
#[derive(Drop)]
pub struct Sight {
    pub capacity: u16,
    pub cells: u16,
    pub waiting: u16,
    told: Vec<Told>,
}

impl Sight {
    pub fn of<L: Ledger>(ledger: &L, heap: Global) -> Result<Sight, AllocError> {
        let cells = ledger.cells();
        let told = (0..=cells.saturating_add(1))
            .map(|c| Told {
                number: ledger.number(c),
                next_zero: ledger.next_zero(c),
            })
            .collect(heap)?;
        Ok(Sight {
            capacity: ledger.capacity(),
            cells,
            waiting: ledger.waiting(),
            told,
        })
    }

    pub fn number(&self, c: u16) -> Option<u16>
        ensures { result ≡ slice_index_or (map (λ t. t.number) self.now.told.items) c None }
    {
        self.told.get(usize::from(c))?.number
    }

    pub fn next_zero(&self, c: u16) -> Option<u16>
        ensures { result ≡ slice_index_or (map (λ t. t.next_zero) self.now.told.items) c None }
    {
        self.told.get(usize::from(c))?.next_zero
    }

    /// The first cell from `c` on of which the number told is 0.
    pub fn first_zero(&self, c: u16) -> Option<u16>
        ensures { FirstZero (map (λ t. t.number) self.now.told.items) c self.now.cells result }
    {
        // Of a range that contains its end, the library doesn't say that `find` finds the first.
        for d in c.max(1)..=self.cells {
            if self.number(d) == Some(0) {
                return Some(d);
            }
        }
        None
    }
}
