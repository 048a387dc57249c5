//! What kind of line some words make.
ghost use Rattle.std.specs.Prelude.{◌≡◌};
ghost use Rattle.parts.specs.Building.{bytes};
ghost use Rattle.parts.specs.Drawn.{idle, is_edit, passed};

// Whether a line of these words says nothing: it is empty, or a comment.
fn is_idle(words: &[&[u8]]) -> bool
    ensures { result ≡ idle (bytes words.now) }
{
    matches!(words, [] | [[b'#', ..], ..])
}

// Whether a line of these words is an edit.
pub(crate) fn is_edit(words: &[&[u8]]) -> bool
    ensures { result ≡ is_edit (bytes words.now) }
{
    !is_idle(words) && matches!(words, [_, b"=", ..])
}

// Whether a line of these words describes no part.
pub(crate) fn is_passed(words: &[&[u8]]) -> bool
    ensures { result ≡ passed (bytes words.now) }
{
    is_idle(words) || is_edit(words)
}
