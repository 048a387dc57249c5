//! The tests that the calls begin with.
ghost use Rattle.std.specs.Prelude.{◌<◌, ◌≢◌, ◌↔◌, IsOk, IsOkUnless, OkIff};
ghost use Rattle.heap.specs.Calls.{root};
ghost use Rattle.heap.specs.States.{state};

use crate::heap::Heap;
use refusals::Refusal;

/// The place of root `r`.
pub(crate) fn root_place(r: u8) -> Result<usize, Refusal>
    ensures ok { OkIff result (r < 16) r }
    ensures err { IsOkUnless result Refusal.Root }
{
    if r > 15 {
        return Err(Refusal::Root);
    }
    Ok(usize::from(r))
}

/// A cell has the slots 0 to 3.
pub(crate) fn check_slot(f: u8) -> Result<(), Refusal>
    ensures ok { IsOk result ↔ (f < 4) }
    ensures err { IsOkUnless result Refusal.Slot }
{
    if f > 3 {
        return Err(Refusal::Slot);
    }
    Ok(())
}

impl Heap {
    /// A heap that isn't sized has no cells.
    pub(crate) fn check_sized(&self) -> Result<(), Refusal>
        ensures ok { IsOk result ↔ ((state self.now).graph.cells ≢ 0) }
        ensures err { IsOkUnless result Refusal.Unsized }
    {
        if self.graph.n == 0 {
            return Err(Refusal::Unsized);
        }
        Ok(())
    }

    /// The cell in a root that may not be empty.
    pub(crate) fn cell_in(&self, r: usize) -> Result<u16, Refusal>
        requires { r < 16 }
        ensures ok { OkIff result (root (state self.now) r ≢ 0) (root (state self.now) r) }
        ensures err { IsOkUnless result Refusal.Empty }
    {
        match self.graph.roots[r] {
            0 => Err(Refusal::Empty),
            cell => Ok(cell),
        }
    }
}
