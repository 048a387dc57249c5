//! What every kind of count promises.
ghost use Rattle.std.specs.Prelude.{◌≡◌, ℕ, Some, Option};
ghost use Rattle.counts.specs.Counting.{raised, lowered, set_to};

/// A count tells a number or is stuck. It is a small value: what changes it answers the changed count.
pub trait Count: Copy {
    /// The greatest number that this kind tells.
    const CEILING: u16;

    /// A count as it lies in somebody else's memory: a plain record, with any bytes in it.
    type Row: Copy;

    /// The ceiling, in contracts.
    ghost ceiling: { ℕ };

    /// What a count tells: its number, or nothing when it is stuck.
    ghost tells: { Self → Option ℕ };

    /// What a row reads as. A row that can't be a count of this kind reads as stuck.
    ghost reads: { Self.Row → Option ℕ };

    /// The row as which a count lies in memory, byte for byte.
    ghost written: { Self → Self.Row };

    /// `CEILING`, tied to what the contracts mean by it, so that no kind can name one ceiling and keep another.
    fn top() -> u16
        ensures { result ≡ ceiling };

    /// A new count tells 0.
    fn new() -> Self
        ensures { tells result ≡ Some 0 };

    fn up(self) -> Self
        ensures { tells result ≡ raised ceiling (tells self) };

    fn down(self) -> Self
        ensures { tells result ≡ lowered (tells self) };

    /// A count that is set to `m`.
    fn set(m: u16) -> Self
        ensures { tells result ≡ set_to ceiling m };

    fn number(self) -> Option<u16>
        ensures { result ≡ tells self };

    /// The count that a row reads as, made after a check.
    // No `From`: that would take a supertrait and a law, besides the ghost member of each impl, where this has one clause.
    fn from_row(row: Self::Row) -> Self
        ensures { tells result ≡ reads row };

    fn to_row(self) -> Self::Row
        ensures bytes { result ≡ written self }
        ensures meaning { reads result ≡ tells self };
}
