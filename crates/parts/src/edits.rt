//! Edits of a drawing's slots, as its text writes them.
ghost use Rattle.std.specs.Prelude.{◌≡◌, ℕ, ◌<◌, ◌≤◌, true, false, [], length, Some, None, MatchOption, MatchResult, slice_index_or};
ghost use Rattle.parts.specs.Building.{bytes, known};
ghost use Rattle.parts.specs.Drawn.{Called};
ghost use Rattle.parts.specs.Edits.{Slot, is_slot, owner, edit_fault, Makes, Edited, Unedited, Collected};
ghost use Rattle.parts.specs.Text.{Bytes, lines, words};
ghost use Rattle.std.specs.List.{ContainsAt as Has};

use crate::drawing::Drawing;
use crate::fault::{Fault, LineError, ReadError};
use crate::kinds::is_edit;
use crate::text::{is_newline, split_words};
use std::alloc::Global;

// A slot, `=` and what the slot is to contain.
const MOST_WORDS: usize = 3;

/// What a slot is to contain from now on.
#[derive(Clone, Copy, Debug, PartialEq, Eq)]
pub struct Edit {
    /// Slot f of part c has the number 4 * (c - 1) + f.
    pub slot: u16,
    /// The number of a part, or 0 where the slot becomes empty.
    pub content: u16,
}

// The part's name and the slot's digit in a word `part.slot`.
fn split_slot<'a>(word: &'a [u8]) -> Option<(&'a [u8], u8)>
    ensures { MatchOption result
        ((is_slot word.now ≡ false) × ((name : Bytes) (f : ℕ) → Slot word.now name f → ⊥))
        (λ p. (is_slot word.now ≡ true) × (p.0.now ≡ owner word.now) × Slot word.now p.0.now p.1) }
{
    match word {
        [name @ .., b'.', digit @ b'0'..=b'3'] if !name.is_empty() => Some((name, digit - b'0')),
        _ => None,
    }
}

// What an edit puts into its slot: the part that its third word names or, without one, 0.
fn new_content(drawing: &Drawing, words: &[&[u8]]) -> Option<u16>
    ensures { MatchOption result
        ((2 < length words.now) × (Has (known drawing.now) (slice_index_or (bytes words.now) 2 []) → ⊥))
        (λ c. (2 < length words.now → Called (known drawing.now) c (slice_index_or (bytes words.now) 2 []))
        × (length words.now ≤ 2 → c ≡ 0)) }
{
    match words {
        [_, _, name, ..] => drawing.find(name),
        _ => Some(0),
    }
}

// The edit that a line of these words makes.
fn edit_by(drawing: &Drawing, words: &[&[u8]]) -> Result<Edit, Fault>
    requires { 0 < length words.now }
    ensures { MatchResult result
        (λ e. (edit_fault (known drawing.now) (bytes words.now) ≡ None) × Makes (known drawing.now) (bytes words.now) e)
        (λ f. edit_fault (known drawing.now) (bytes words.now) ≡ Some f) }
{
    if words.len() > MOST_WORDS {
        return Err(Fault::BadEdit);
    }
    let (name, digit) = split_slot(words[0]).ok_or(Fault::BadEdit)?;
    let part = drawing.find(name).ok_or(Fault::UnknownPart)?;
    let content = new_content(drawing, words).ok_or(Fault::UnknownPart)?;
    let slot = 4 * (part - 1) + u16::from(digit);
    Ok(Edit { slot, content })
}

// Adds the edit of one more line, if it is one.
fn collect_line(
    heap: Global,
    drawing: &Drawing,
    line: &[u8],
    edits: &mut Vec<Edit>,
) -> Result<(), LineError>
    ensures { Collected (known drawing.now) (words line.now) edits.old.items edits.new.items result }
{
    let words = split_words(heap, line)?;
    if !is_edit(&words) {
        return Ok(());
    }
    let edit = edit_by(drawing, &words)?;
    edits.push(edit)?;
    Ok(())
}

/// The edits that a text makes in its drawing, in order, or the first fault of one.
pub fn read_edits<'a>(
    heap: Global,
    text: &'a [u8],
    drawing: &Drawing<'a>,
) -> Result<Vec<Edit>, ReadError>
    ensures { MatchResult result (λ es. Edited (known drawing.now) (lines text.now) es.items) (Unedited (known drawing.now) (lines text.now)) }
{
    let mut edits = Vec::new(heap);
    for (above, line) in text.split(is_newline).enumerate() {
        collect_line(heap, drawing, line, &mut edits).map_err(|error| error.at_line(above + 1))?;
    }
    Ok(edits)
}
