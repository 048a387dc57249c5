//! Which words may describe a part, whatever the drawing.
ghost use Rattle.std.specs.Prelude.{◌≡◌, None, Some, MatchResult};
ghost use Rattle.parts.specs.Faults.{unprintable};
ghost use Rattle.parts.specs.Building.{bytes, fault_in};

use crate::fault::Fault;

// A name and four references.
const MOST_WORDS: usize = 5;

const LONGEST_NAME: usize = 32;

// Refuses the words of a description for what is wrong with them by themselves.
pub(crate) fn check(words: &[&[u8]]) -> Result<(), Fault>
    ensures { MatchResult result (λ _. fault_in (bytes words.now) ≡ None) (λ f. fault_in (bytes words.now) ≡ Some f) }
{
    if words.len() > MOST_WORDS {
        return Err(Fault::TooManyReferences);
    }
    if words.iter().any(|name| name.len() > LONGEST_NAME) {
        return Err(Fault::NameTooLong);
    }
    if words.iter().any(|name| is_unprintable(name)) {
        return Err(Fault::NameNotPrintable);
    }
    Ok(())
}

// Whether a byte of the name is not printable ASCII.
fn is_unprintable(name: &[u8]) -> bool
    ensures { result ≡ unprintable name.now }
{
    name.iter().any(|byte| !byte.is_ascii_graphic())
}
