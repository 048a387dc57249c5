//! The causes, their numbers and their words.
ghost use Rattle.std.specs.Prelude.{◌≡◌, Some};
ghost use Rattle.refusals.specs.Words.{number, words};

use std::fmt;

/// The causes, in the order in which a call tests for them. A refused call changes nothing.
#[derive(Clone, Copy, Debug, PartialEq, Eq)]
pub enum Refusal {
    Cells,
    Root,
    Slot,
    Memory,
    Unsized,
    Sized,
    Ledger,
    Full,
    Empty,
    Holds,
    Token,
}

impl Refusal {
    /// The number that names the refusal.
    pub fn number(self) -> u8
        ensures { result ≡ number self }
    {
        self as u8 + 1
    }
}

impl fmt::Display for Refusal {
    ghost output = { λ x. Some (words x) };

    fn fmt<W: fmt::Write>(&self, f: &mut fmt::Formatter<W>) -> fmt::Result {
        f.write_str(match self {
            Refusal::Cells => "a heap has 1 to 1024 cells",
            Refusal::Root => "a root number is above 15",
            Refusal::Slot => "a slot is above 3",
            Refusal::Memory =>
                "a work memory or the freed list is shorter than the number of cells",
            Refusal::Unsized => "the heap is not sized",
            Refusal::Sized => "the heap is sized already",
            Refusal::Ledger => "the ledger refuses to clear",
            Refusal::Full => "every cell is in use",
            Refusal::Empty => "the root is empty",
            Refusal::Holds => "sixteen holds are open",
            Refusal::Token => "the token is not open here",
        })
    }
}
