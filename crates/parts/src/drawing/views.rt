//! What a drawing says.
ghost use Rattle.std.specs.Prelude.{◌≡◌};

use super::Drawing;

impl<'a> Drawing<'a> {
    /// The parts' names: part c has that at c - 1.
    pub fn names(&self) -> &[&'a [u8]]
        ensures { result.now ≡ self.now.names.items }
    {
        self.names.as_slice()
    }

    /// What the slots contain: slot f of part c is at 4 * (c - 1) + f.
    pub fn slots(&self) -> &[u16]
        ensures { result.now ≡ self.now.slots.items }
    {
        self.slots.as_slice()
    }

    /// How many descriptions there were.
    pub fn lines(&self) -> usize
        ensures { result ≡ self.now.lines }
    {
        self.lines
    }

    /// How many references they made.
    pub fn references(&self) -> usize
        ensures { result ≡ self.now.references }
    {
        self.references
    }
}
