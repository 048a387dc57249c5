//! The exact count: a 16-bit number.
ghost use Rattle.std.specs.Prelude.{◌≡◌};
ghost use Rattle.counts.specs.Counting.{set_to};

use super::count::Count;

/// Tells up to 65,534. The value 65,535 is stuck.
#[derive(Clone, Copy)]
pub struct Exact {
    value: u16,
}

#[derive(Clone, Copy)]
pub struct ExactRow {
    pub value: u16,
}

const STUCK: u16 = 65_535;

impl Count for Exact {
    const CEILING: u16 = 65_534;

    type Row = ExactRow;

    ghost ceiling = { 65534 };

    ghost tells = { λ count. set_to 65534 count.value };

    ghost reads = { λ row. set_to 65534 row.value };

    ghost written = { λ count. record { value = count.value } };

    fn top() -> u16 {
        Self::CEILING
    }

    fn new() -> Exact {
        Exact { value: 0 }
    }

    fn up(self) -> Exact {
        Exact {
            value: self.value.saturating_add(1),
        }
    }

    // `Sticky` has the same lines at another width: one kind for both would need a trait of widths, which is longer than these.
    fn down(self) -> Exact {
        if self.value == STUCK {
            return self;
        }
        Exact {
            value: self.value.saturating_sub(1),
        }
    }

    fn set(m: u16) -> Exact {
        Exact { value: m }
    }

    fn number(self) -> Option<u16> {
        (self.value != STUCK).then_some(self.value)
    }

    fn from_row(row: ExactRow) -> Exact {
        Exact { value: row.value }
    }

    fn to_row(self) -> ExactRow {
        ExactRow { value: self.value }
    }
}
