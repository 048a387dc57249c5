//! Which notes are in range.
ghost use Rattle.std.specs.Prelude.{◌*◌, ◌<◌, ◌≤◌, ◌↔◌, IsTrue};

/// Whether a note is in range for `n` cells: its slot is one of theirs, and each of its contents is 0 or a cell.
pub fn in_range(n: u16, slot: u16, old: u16, new: u16) -> bool
    ensures { IsTrue result ↔ ((slot < 4 * n) × (old ≤ n) × (new ≤ n)) }
{
    u32::from(slot) < 4 * u32::from(n) && old <= n && new <= n
}
