//! Reading a drawing from its text.
ghost use Rattle.std.specs.Prelude.{List};
ghost use Rattle.parts.specs.Building.{Building};
ghost use Rattle.parts.specs.Reads.{Reads, Taken};
ghost use Rattle.parts.specs.Text.{Bytes};

use crate::drawing::Drawing;
use crate::fault::{LineError, ReadError};
use crate::kinds::is_passed;
use crate::text::{is_newline, split_words};
use std::alloc::Global;

// Takes one more line into the drawing.
fn read_line<'a>(heap: Global, drawing: &mut Drawing<'a>, line: &'a [u8]) -> Result<(), LineError>
    ensures { (ds : List (List Bytes)) → Building ds drawing.old → Taken ds line.now drawing.new result }
{
    let words = split_words(heap, line)?;
    if is_passed(&words) {
        return Ok(());
    }
    drawing.describe(&words)
}

/// The drawing that a text describes, or the first fault of a description. Edits are left to `read_edits`.
pub fn read<'a>(heap: Global, text: &'a [u8]) -> Result<Drawing<'a>, ReadError>
    ensures { Reads text.now result }
{
    let mut drawing = Drawing::new(heap);
    for (above, line) in text.split(is_newline).enumerate() {
        read_line(heap, &mut drawing, line).map_err(|error| error.at_line(above + 1))?;
    }
    Ok(drawing)
}
