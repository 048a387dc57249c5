//! What is printed of a part.
use entry::Told;
use std::alloc::{AllocError, Global};
use std::str;

// How many references there are to a part.
fn counted(memory: Global, references: Option<u16>) -> Result<String, AllocError> {
    match references {
        Some(1) => format!(in memory; "1 reference"),
        Some(number) => format!(in memory; "{number} references"),
        None => format!(in memory; "references beyond count"),
    }
}

// The names of the parts in these slots, each after a space.
fn targets(memory: Global, slots: &[u16], names: &[&[u8]]) -> anyhow::Result<String> {
    let mut line = String::new(memory);
    for part in slots {
        if let Some(name) = usize::from(*part).checked_sub(1).and_then(|i| names.get(i)) {
            line.push_str(" ")?;
            line.push_str(str::from_utf8(name)?)?;
        }
    }
    if line.is_empty() {
        line.push_str(" none")?;
    }
    Ok(line)
}

/// A part's name, what the ledger tells of it, and the parts in its slots, which `names` has by number.
pub fn part_line(
    memory: Global,
    name: &[u8],
    told: Told,
    slots: &[u16],
    names: &[&[u8]],
) -> anyhow::Result<String> {
    let name = str::from_utf8(name)?;
    let counted = counted(memory, told.references)?;
    let targets = targets(memory, slots, names)?;
    Ok(format!(in memory; "{name}: {counted}, points to{targets}")?)
}
