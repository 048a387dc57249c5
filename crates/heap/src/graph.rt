//! What a heap keeps.
ghost use Rattle.std.specs.Prelude.{◌≡◌, ◌+◌, ◌-◌, ◌*◌, ◌<◌, ◌≤◌};

use crate::bits::Bits;

/// The tables of a heap of `n` cells. Slot `f` of cell `c` stands at `4 * (c - 1) + f`; a slot, a root or a hold contains 0 or a cell.
/// `used` and `suspects` have a bit for each cell. `last` is the cell that was given out last, 0 before the first.
// A rule of the project: a heap has fixed tables, and takes no memory.
#[derive(Drop)]
pub struct Graph {
    pub n: u16,
    pub slots: [u16; 4096],
    pub roots: [u16; 16],
    pub holds: [u16; 16],
    pub used: Bits,
    pub suspects: Bits,
    pub last: u16,
}

/// The number of slot `f` of cell `c`.
pub(crate) fn slot_number(c: u16, f: u8) -> u16
    requires cell { (0 < c) × (c ≤ 1024) }
    requires slot { f < 4 }
    ensures { result ≡ 4 * (c - 1) + f }
{
    4 * (c - 1) + u16::from(f)
}
