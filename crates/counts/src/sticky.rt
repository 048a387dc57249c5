//! The sticky count: two bits' worth, for cells that few slots hold.
ghost use Rattle.std.specs.Prelude.{◌≡◌, ◌≤◌};
ghost use Rattle.counts.specs.Counting.{set_to};

use super::count::Count;

/// Tells up to 2. The value 3 is stuck, and it never holds more than 3.
#[derive(Clone, Copy)]
pub struct Sticky {
    value: u8,
    ghost small: { value ≤ 3 },
}

#[derive(Clone, Copy)]
pub struct StickyRow {
    pub value: u8,
}

const STUCK: u8 = 3;

impl Count for Sticky {
    const CEILING: u16 = 2;

    type Row = StickyRow;

    ghost ceiling = { 2 };

    ghost tells = { λ count. set_to 2 count.value };

    ghost reads = { λ row. set_to 2 row.value };

    ghost written = { λ count. record { value = count.value } };

    fn top() -> u16 {
        Self::CEILING
    }

    fn new() -> Sticky {
        Sticky { value: 0 }
    }

    fn up(self) -> Sticky {
        if self.value == STUCK {
            return self;
        }
        Sticky {
            value: self.value + 1,
        }
    }

    fn down(self) -> Sticky {
        if self.value == STUCK {
            return self;
        }
        Sticky {
            value: self.value.saturating_sub(1),
        }
    }

    fn set(m: u16) -> Sticky {
        if m > Self::CEILING {
            return Sticky { value: STUCK };
        }
        Sticky { value: m as u8 }
    }

    fn number(self) -> Option<u16> {
        (self.value != STUCK).then_some(u16::from(self.value))
    }

    fn from_row(row: StickyRow) -> Sticky {
        Sticky {
            value: row.value.min(STUCK),
        }
    }

    fn to_row(self) -> StickyRow {
        StickyRow { value: self.value }
    }
}
