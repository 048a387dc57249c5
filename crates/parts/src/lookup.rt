//! Finding a line of a text by what it says.
ghost use Rattle.std.specs.Prelude.{◌≡◌, IfOk};
ghost use Rattle.parts.specs.Building.{bytes};
ghost use Rattle.parts.specs.Finds.{Finds, is_sought};
ghost use Rattle.parts.specs.Text.{lines};

use crate::kinds::{is_edit, is_passed};
use crate::text::{is_newline, split_words};
use std::alloc::{AllocError, Global};

/// A kind of line.
#[derive(Clone, Copy)]
pub enum LineKind {
    /// A description that mentions a part.
    Mention,
    /// The description of a part.
    Description,
    /// An edit, of whatever part.
    Edit,
}

impl LineKind {
    // Whether a line of these words is of this kind, for the part of this name.
    fn is(self, name: &[u8], words: &[&[u8]]) -> bool
        ensures { result ≡ is_sought self name.now (bytes words.now) }
    {
        match self {
            LineKind::Mention => !is_passed(words) && words.contains(&name),
            LineKind::Description => !is_passed(words) && words.first() == Some(&name),
            LineKind::Edit => is_edit(words),
        }
    }
}

/// The number of the line, counted from 1, that is of a kind, for the part of this name, and comes after `skip` others of that kind.
pub fn find_line(
    heap: Global,
    text: &[u8],
    kind: LineKind,
    name: &[u8],
    skip: usize,
) -> Result<Option<usize>, AllocError>
    ensures { IfOk result (Finds kind name.now (lines text.now) skip) }
{
    // Counted here, and not by `nth`: a test that takes memory can't be a `filter`.
    let mut to_pass = skip;
    for (above, line) in text.split(is_newline).enumerate() {
        let words = split_words(heap, line)?;
        if kind.is(name, &words) {
            if to_pass == 0 {
                return Ok(Some(above + 1));
            }
            to_pass -= 1;
        }
    }
    Ok(None)
}
