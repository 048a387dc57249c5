//! What can be wrong with the text of a drawing.
ghost use Rattle.std.specs.Prelude.{◌≡◌, Some};
ghost use Rattle.parts.specs.Errors.{at_line};
ghost use Rattle.parts.specs.Messages.{sentence, report};
ghost use Rattle.parts.specs.declared.fault.LineError.TheVariants.{Memory, Wrong};

use std::alloc::{AllocError, AllocFailed};
use std::error::Error;
use std::fmt;

/// What is wrong with a line.
#[derive(Clone, Copy, Debug, PartialEq, Eq)]
pub enum Fault {
    TooManyReferences,
    NameTooLong,
    NameNotPrintable,
    DescribedTwice,
    TooManyParts,
    BadEdit,
    UnknownPart,
}

impl fmt::Display for Fault {
    ghost output = { λ e. Some (sentence e) };

    fn fmt<W: fmt::Write>(&self, f: &mut fmt::Formatter<W>) -> fmt::Result {
        f.write_str(match self {
            Fault::TooManyReferences => "more than four references",
            Fault::NameTooLong => "a name is longer than 32 characters",
            Fault::NameNotPrintable => "a name is not printable ASCII",
            Fault::DescribedTwice => "this part is described already",
            Fault::TooManyParts => "more than 1,024 parts",
            Fault::BadEdit => "an edit reads part.slot = other, with a slot from 0 to 3",
            Fault::UnknownPart => "no such part in this drawing",
        })
    }
}

/// Why a line was not taken.
#[derive(Clone, Copy, Debug, PartialEq, Eq)]
pub(crate) enum LineError {
    Wrong(Fault),
    Memory,
}

impl LineError {
    // The error of the text whose line this is.
    pub(crate) fn at_line(self, line: usize) -> ReadError
        ensures { result ≡ at_line line self }
    {
        match self {
            LineError::Wrong(fault) => ReadError::Wrong { line, fault },
            LineError::Memory => ReadError::Memory,
        }
    }
}

impl From<Fault> for LineError {
    ghost from_gives = { λ f r. r ≡ Wrong f };

    fn from(fault: Fault) -> LineError {
        LineError::Wrong(fault)
    }
}

impl From<AllocError> for LineError {
    ghost from_gives = { λ _ r. r ≡ Memory };

    fn from(_: AllocError) -> LineError {
        LineError::Memory
    }
}

impl<T: Drop> From<AllocFailed<T>> for LineError {
    ghost from_gives = { λ _ r. r ≡ Memory };

    fn from(_: AllocFailed<T>) -> LineError {
        LineError::Memory
    }
}

/// Why a text gave no drawing, or no edits.
#[derive(Clone, Copy, Debug, PartialEq, Eq)]
pub enum ReadError {
    /// The first line with a fault, counted from 1.
    Wrong { line: usize, fault: Fault },
    Memory,
}

impl fmt::Display for ReadError {
    ghost output = { λ e. Some (report e) };

    fn fmt<W: fmt::Write>(&self, f: &mut fmt::Formatter<W>) -> fmt::Result {
        match self {
            ReadError::Wrong { line, fault } => write!(f, "line {line}: {fault}"),
            ReadError::Memory => f.write_str("out of memory"),
        }
    }
}

impl Error for ReadError {}
