//! What is replayed, and what comes of it.
ghost use Rattle.std.specs.Prelude.{◌≡◌};
ghost use Rattle.replay.specs.declared.replay.ReplayError.TheVariants.{Memory as NoMemory, TooManyCells as TooMany};

use ledgers::TooManyCells;
use std::alloc::AllocError;
use std::error::Error;
use std::fmt;

/// What a ledger answered after a replay.
#[derive(Drop)]
pub struct Replayed {
    /// How much it had put off before it was settled.
    pub waiting: u16,
    /// The number of holders of each cell, or nothing where the ledger tells none.
    pub numbers: Vec<Option<u16>>,
    /// The cells of which 0 is told.
    pub zeros: Vec<u16>,
}

/// Why nothing was replayed.
#[derive(Clone, Copy, Debug, PartialEq, Eq)]
pub enum ReplayError {
    /// There are more cells than the ledger has room for.
    TooManyCells,
    /// The slots are no table of four slots a cell, or an edit is out of its range.
    OutOfRange,
    Memory,
}

impl From<AllocError> for ReplayError {
    ghost from_gives = { λ _ r. r ≡ NoMemory };

    fn from(_: AllocError) -> ReplayError {
        ReplayError::Memory
    }
}

impl From<TooManyCells> for ReplayError {
    ghost from_gives = { λ _ r. r ≡ TooMany };

    fn from(_: TooManyCells) -> ReplayError {
        ReplayError::TooManyCells
    }
}

impl fmt::Display for ReplayError {
    fn fmt<W: fmt::Write>(&self, f: &mut fmt::Formatter<W>) -> fmt::Result {
        f.write_str(match self {
            ReplayError::TooManyCells => "more parts than the ledger has room for",
            ReplayError::OutOfRange => "a slot or its content is out of range",
            ReplayError::Memory => "out of memory",
        })
    }
}

impl Error for ReplayError {}
