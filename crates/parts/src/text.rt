//! Cutting a text into lines, and a line into words.
ghost use Rattle.std.specs.Prelude.{◌≡◌, ◌<◌, [], ◌∷◌, map, length, IfOk, MatchOption};
ghost use Rattle.parts.specs.Text.{blank, newline, words};

use std::alloc::{AllocError, Global};

// Whether a byte ends a line.
pub(crate) fn is_newline(byte: &u8) -> bool
    ensures { result ≡ newline byte.now }
{
    *byte == b'\n'
}

// Whether a byte keeps words apart: a space, a tab or a carriage return.
fn is_blank(byte: &u8) -> bool
    ensures { result ≡ blank byte.now }
{
    matches!(byte, b' ' | b'\t' | b'\r')
}

// The first word of a line, or of what is left of one, and what comes after it, if there is a word.
fn next_word(text: &[u8]) -> Option<(&[u8], &[u8])>
    ensures { MatchOption result (words text.now ≡ []) (λ p. (words text.now ≡ p.0.now ∷ words p.1.now) × (length p.1.now < length text.now)) }
{
    let start = text.iter().position(|byte| !is_blank(byte))?;
    let rest = &text[start..];
    let end = rest.iter().position(is_blank).unwrap_or(rest.len());
    Some(rest.split_at(end))
}

// The words of a line, in order: what stands between its blanks and is not empty.
pub(crate) fn split_words<'a>(heap: Global, line: &'a [u8]) -> Result<Vec<&'a [u8]>, AllocError>
    ensures { IfOk result (λ v. map (λ w. w.now) v.items ≡ words line.now) }
{
    let mut found = Vec::new(heap);
    let mut rest = line;
    // No `split`: it makes a piece of each blank, and on an empty line costs more than the rest of the reading.
    while let Some((word, after)) = next_word(rest) {
        found.push(word)?;
        rest = after;
    }
    Ok(found)
}
