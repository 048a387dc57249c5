//! The line of the text at which entering it stopped.
ghost use Rattle.std.specs.Prelude.{◌≡◌, IfOk};
ghost use Rattle.entry.specs.Located.{LineOf, Located, name_of};
ghost use Rattle.parts.specs.Building.{known};
ghost use Rattle.parts.specs.Text.{lines};

use crate::error::{Cause, EntryError, Place, Stop};
use parts::{Drawing, LineKind, find_line};
use std::alloc::{AllocError, Global};

// The name of a part.
fn name<'a>(drawing: &Drawing<'a>, part: u16) -> &'a [u8]
    ensures { result.now ≡ name_of (known drawing.now) part }
{
    let i = usize::from(part).saturating_sub(1);
    drawing.names().get(i).copied().unwrap_or(b"")
}

// The line of what was being entered.
fn line_of(
    memory: Global,
    text: &[u8],
    drawing: &Drawing,
    place: Place,
) -> Result<Option<usize>, AllocError>
    ensures { IfOk result (LineOf (known drawing.now) (lines text.now) place) }
{
    match place {
        Place::Start => Ok(None),
        Place::Part(part) => find_line(memory, text, LineKind::Mention, name(drawing, part), 0),
        Place::Reference(part) => find_line(
            memory,
            text,
            LineKind::Description,
            name(drawing, part),
            0,
        ),
        Place::Edit(i) => find_line(memory, text, LineKind::Edit, b"", i),
    }
}

// The error of the text whose entering stopped.
pub(crate) fn locate(memory: Global, text: &[u8], drawing: &Drawing, stop: Stop) -> EntryError
    ensures { Located (known drawing.now) (lines text.now) stop.place stop.cause result }
{
    let refusal = match stop.cause {
        Cause::Refused(refusal) => refusal,
        Cause::Lost => return EntryError::Lost,
        Cause::Memory => return EntryError::Memory,
    };
    match line_of(memory, text, drawing, stop.place) {
        Ok(Some(line)) => EntryError::Refused { line, refusal },
        Ok(None) => EntryError::Unready(refusal),
        Err(_) => EntryError::Memory,
    }
}
