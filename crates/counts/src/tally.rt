//! The tally: one byte, filled with ones from its low end.
ghost use Rattle.std.specs.Prelude.{◌≡◌};
ghost use Rattle.counts.specs.Tallied.{LowOnes, tally, tally_row};

use super::count::Count;

/// Tells its number of ones, up to 7. Eight ones are stuck.
#[derive(Clone, Copy)]
pub struct Tally {
    ones: u8,
    ghost low: { LowOnes ones },
}

#[derive(Clone, Copy)]
pub struct TallyRow {
    pub ones: u8,
}

const STUCK: u8 = 0b1111_1111;

impl Count for Tally {
    const CEILING: u16 = 7;

    type Row = TallyRow;

    ghost ceiling = { 7 };

    ghost tells = { λ count. tally count.ones };

    ghost reads = { λ row. tally_row row.ones };

    ghost written = { λ count. record { ones = count.ones } };

    fn top() -> u16 {
        Self::CEILING
    }

    fn new() -> Tally {
        Tally { ones: 0 }
    }

    // One more at the low end; of eight ones the highest falls out, and eight are left.
    fn up(self) -> Tally {
        Tally {
            ones: (self.ones << 1) | 1,
        }
    }

    fn down(self) -> Tally {
        if self.ones == STUCK {
            return self;
        }
        Tally {
            ones: self.ones >> 1,
        }
    }

    fn set(m: u16) -> Tally {
        if m > Self::CEILING {
            return Tally { ones: STUCK };
        }
        Tally {
            ones: ((1u16 << m) - 1) as u8,
        }
    }

    fn number(self) -> Option<u16> {
        (self.ones != STUCK).then_some(self.ones.count_ones() as u16)
    }

    fn from_row(row: TallyRow) -> Tally {
        if u16::from(row.ones) + 1 != 1 << row.ones.count_ones() {
            return Tally { ones: STUCK };
        }
        Tally { ones: row.ones }
    }

    fn to_row(self) -> TallyRow {
        TallyRow { ones: self.ones }
    }
}
