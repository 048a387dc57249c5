//! The kinds of count.
ghost use Rattle.std.specs.Prelude.{◌≡◌, ℕ, ◌%◌};

use counts::{Count, Exact, ExactRow, Sticky, StickyRow, Tally, TallyRow};
use std::fmt;

/// The kinds by name.
#[derive(Clone, Copy, Debug)]
pub enum KindName {
    Exact,
    Sticky,
    Tally,
}

impl fmt::Display for KindName {
    fn fmt<W: fmt::Write>(&self, f: &mut fmt::Formatter<W>) -> fmt::Result {
        f.write_str(match self {
            KindName::Exact => "exact",
            KindName::Sticky => "sticky",
            KindName::Tally => "tally",
        })
    }
}

/// A kind of count whose rows can be filled with any bytes.
pub trait Kind: Count {
    const NAME: KindName;

    /// The row that is made of a number of 16 bits: of its low byte, where a row is one byte.
    ghost row_of: { ℕ → Self.Row };

    fn row(bits: u16) -> Self::Row
        ensures { result ≡ row_of bits };
}

impl Kind for Exact {
    const NAME: KindName = KindName::Exact;

    ghost row_of = { λ bits. record { value = bits } };

    fn row(bits: u16) -> ExactRow {
        ExactRow { value: bits }
    }
}

impl Kind for Sticky {
    const NAME: KindName = KindName::Sticky;

    ghost row_of = { λ bits. record { value = bits % 256 } };

    fn row(bits: u16) -> StickyRow {
        StickyRow {
            value: (bits % 256) as u8,
        }
    }
}

impl Kind for Tally {
    const NAME: KindName = KindName::Tally;

    ghost row_of = { λ bits. record { ones = bits % 256 } };

    fn row(bits: u16) -> TallyRow {
        TallyRow {
            ones: (bits % 256) as u8,
        }
    }
}
