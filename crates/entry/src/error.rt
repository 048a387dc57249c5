//! Why a drawing was not entered.
ghost use Rattle.std.specs.Prelude.{◌≡◌, Some};
ghost use Rattle.entry.specs.Messages.{report};
ghost use Rattle.entry.specs.declared.error.Cause.TheVariants.{Memory as Short};
ghost use Rattle.entry.specs.declared.error.Place.TheVariants.{Start};

use heap::Refusal;
use std::alloc::AllocError;
use std::error::Error;
use std::fmt;

/// Why a step was not done.
#[derive(Clone, Copy)]
pub(crate) enum Cause {
    Refused(Refusal),
    /// The index led to another cell than the part's. It never does: that the code looks makes it plain that no other cell is written.
    Lost,
    Memory,
}

impl From<Refusal> for Cause {
    fn from(refusal: Refusal) -> Cause {
        Cause::Refused(refusal)
    }
}

/// What was being entered.
#[derive(Clone, Copy)]
pub(crate) enum Place {
    /// Nothing of the text.
    Start,
    /// The part of this number, at its first mention.
    Part(u16),
    /// A reference of the part of this number.
    Reference(u16),
    /// The edit at this place among the edits, from 0.
    Edit(usize),
}

/// A step that was not done, and what was being entered.
#[derive(Clone, Copy)]
pub(crate) struct Stop {
    pub place: Place,
    pub cause: Cause,
}

impl From<AllocError> for Stop {
    ghost from_gives = { λ _ r. (r.place ≡ Start) × (r.cause ≡ Short) };

    fn from(_: AllocError) -> Stop {
        Cause::Memory.at(Place::Start)
    }
}

impl Cause {
    pub(crate) fn at(self, place: Place) -> Stop
        ensures { (result.place ≡ place) × (result.cause ≡ self) }
    {
        Stop { place, cause: self }
    }
}

/// Why a drawing was not entered.
#[derive(Clone, Copy, Debug, PartialEq, Eq)]
pub enum EntryError {
    /// A call of the heap was refused, with the line of the text that caused it.
    Refused { line: usize, refusal: Refusal },
    /// A call was refused before the first part, or the text has no line for what was being entered.
    Unready(Refusal),
    /// The index led to another cell than the part's, which it never does.
    Lost,
    Memory,
}

impl fmt::Display for EntryError {
    ghost output = { λ e. Some (report e) };

    fn fmt<W: fmt::Write>(&self, f: &mut fmt::Formatter<W>) -> fmt::Result {
        match self {
            EntryError::Refused { line, refusal } => {
                let number = refusal.number();
                write!(f, "line {line}: refusal {number}: {refusal}")
            }
            EntryError::Unready(refusal) => {
                let number = refusal.number();
                write!(f, "refusal {number}: {refusal}")
            }
            EntryError::Lost => f.write_str("the index of the parts leads astray"),
            EntryError::Memory => f.write_str("out of memory"),
        }
    }
}

impl Error for EntryError {}
