//! Writes that keep the suspects.
ghost use Rattle.std.specs.Prelude.{◌≡◌, ℕ, ◌*◌, ◌<◌, ◌≤◌, IsTrue};
ghost use Rattle.heap.specs.Bits.{flags};
ghost use Rattle.heap.specs.Calls.{given, lost, with_hold, with_root, with_slot};
ghost use Rattle.heap.specs.Looks.{is_cell};
ghost use Rattle.heap.specs.States.{state};

use crate::bits::Bits;
use crate::heap::Heap;
use std::mem;

/// Puts a content in a place. A cell that is given up for another content becomes a suspect.
fn put(place: &mut u16, content: u16, suspects: &mut Bits)
    requires { place.old ≤ 1024 }
    ensures place { place.new ≡ content }
    ensures suspects { (n : ℕ) → place.old ≤ n → flags n suspects.new ≡ lost place.old content (flags n suspects.old) }
{
    let old = mem::replace(place, content);
    if old != 0 && old != content {
        suspects.raise(old);
    }
}

// A method for each table: its contract says which one changes.
impl Heap {
    pub(crate) fn put_root(&mut self, r: usize, c: u16)
        requires root { r < 16 }
        requires cell { c ≤ (state self.old).graph.cells }
        ensures { state self.new ≡ with_root (state self.old) r c }
    {
        put(&mut self.graph.roots[r], c, &mut self.graph.suspects);
    }

    pub(crate) fn put_slot(&mut self, i: usize, c: u16)
        requires slot { i < 4 * (state self.old).graph.cells }
        requires cell { c ≤ (state self.old).graph.cells }
        ensures { state self.new ≡ with_slot (state self.old) i c }
    {
        put(&mut self.graph.slots[i], c, &mut self.graph.suspects);
    }

    pub(crate) fn put_hold(&mut self, k: usize, c: u16)
        requires hold { k < 16 }
        requires cell { c ≤ (state self.old).graph.cells }
        ensures { state self.new ≡ with_hold (state self.old) k c }
    {
        put(&mut self.graph.holds[k], c, &mut self.graph.suspects);
    }

    /// Takes cell `c` into use.
    pub(crate) fn give(&mut self, c: u16)
        requires { IsTrue (is_cell (state self.old) c) }
        ensures { state self.new ≡ given (state self.old) c }
    {
        self.graph.used.raise(c);
        self.graph.last = c;
    }
}
