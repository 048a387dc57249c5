//! The picture of a heap.
ghost use Rattle.std.specs.Prelude.{◌++◌, IsTrue, Some, codes};
ghost use Rattle.heap.specs.Looks.{is_cell};
ghost use Rattle.heap.specs.Pictures.{cell_row, cell_rows, mark, picture, row};
ghost use Rattle.heap.specs.States.{state};
ghost use Rattle.std.specs.Fmt.{WritesOnOk};

use crate::graph::slot_number;
use crate::heap::Heap;
use std::fmt;

// A blank and a content, or a dash where there is none.
fn write_mark<W: fmt::Write>(f: &mut fmt::Formatter<W>, content: u16) -> fmt::Result
    ensures { WritesOnOk W.Write.write_str_gives f.old result (codes " " ++ mark content) f.new }
{
    if content == 0 {
        f.write_str(" -")
    } else {
        write!(f, " {content}")
    }
}

// A row of contents, to the end of its line.
fn write_row<W: fmt::Write>(f: &mut fmt::Formatter<W>, contents: &[u16]) -> fmt::Result
    ensures { WritesOnOk W.Write.write_str_gives f.old result (row contents.now) f.new }
{
    f.write_str(":")?;
    for &content in contents {
        write_mark(f, content)?;
    }
    f.write_str("\n")
}

impl Heap {
    // The row of cell `c`, if it is in use.
    fn write_cell<W: fmt::Write>(&self, f: &mut fmt::Formatter<W>, c: u16) -> fmt::Result
        requires { IsTrue (is_cell (state self.now) c) }
        ensures { WritesOnOk W.Write.write_str_gives f.old result (cell_row (state self.now) c) f.new }
    {
        if !self.graph.used.test(c) {
            return Ok(());
        }
        write!(f, "{c}")?;
        let first = usize::from(slot_number(c, 0));
        write_row(f, &self.graph.slots[first..first + 4])
    }

    // The rows of all cells in use.
    fn write_cells<W: fmt::Write>(&self, f: &mut fmt::Formatter<W>) -> fmt::Result
        ensures { WritesOnOk W.Write.write_str_gives f.old result (cell_rows (state self.now) (state self.now).graph.cells) f.new }
    {
        for c in 1..=self.graph.n {
            self.write_cell(f, c)?;
        }
        Ok(())
    }
}

impl fmt::Display for Heap {
    ghost output = { λ h. Some (picture (state h)) };

    fn fmt<W: fmt::Write>(&self, f: &mut fmt::Formatter<W>) -> fmt::Result {
        self.write_cells(f)?;
        f.write_str("roots")?;
        write_row(f, &self.graph.roots)?;
        f.write_str("holds")?;
        write_row(f, &self.graph.holds)
    }
}
