//! The cells of a drawing's parts.
ghost use Rattle.std.specs.Prelude.{◌≡◌, ◌<◌, ◌≤◌, length, IfSome, MatchOption};
ghost use Rattle.entry.specs.Entries.{cell_of};

use std::marker::Model;

/// The cell of each part, in the order of the parts' numbers. There are at most as many as a heap can have.
#[derive(Drop)]
pub(crate) struct Cells {
    cells: Vec<u16>,
}

impl Model for Cells {
    ghost use Rattle.std.specs.Prelude.{ℕ, ◌≤◌, List, length};

    ghost Value = { List ℕ };

    ghost view = { λ c. c.cells.items };

    ghost invariant = { λ c. length c.cells.items ≤ 1024 };
}

impl Cells {
    /// These cells.
    pub(crate) fn from_vec(cells: Vec<u16>) -> Cells
        requires { length cells.items ≤ 1024 }
        ensures { result ≡ cells.items }
    {
        Cells { cells }
    }

    /// How many parts there are, which is also the number of the last.
    pub(crate) fn len(&self) -> u16
        ensures value { result ≡ length self.now }
        ensures few { length self.now ≤ 1024 }
    {
        self.cells.len() as u16
    }

    /// The cell of a part; part 0 stands for an empty slot.
    pub(crate) fn cell_of(&self, part: u16) -> Option<u16>
        ensures { MatchOption result (length self.now < part) (λ cell. (part ≤ length self.now) × (cell ≡ cell_of self.now part)) }
    {
        if part == 0 {
            return Some(0);
        }
        self.cells.get(usize::from(part) - 1).copied()
    }

    /// The part whose cell this is; 0 where it is none.
    pub(crate) fn part_in(&self, cell: u16) -> Option<u16>
        ensures { IfSome result (λ part. (part ≤ length self.now) × (cell_of self.now part ≡ cell)) }
    {
        if cell == 0 {
            return Some(0);
        }
        let i = self.cells.iter().position(|&other| other == cell)?;
        Some(i as u16 + 1)
    }

    /// The cells, that of part `c` at `c - 1`.
    pub(crate) fn into_vec(self) -> Vec<u16>
        ensures { result.items ≡ self }
    {
        let Cells { cells } = self;
        cells
    }
}
