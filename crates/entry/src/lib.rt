//! Enters a drawing into a heap through its calls, and asks the heap and its ledger about the parts.
#![tactic(auto)]

mod answers;
mod cells;
mod entering;
mod error;
mod index;
mod locate;
mod pointing;

pub use answers::{Answers, Told, ask};
pub use entering::{Entered, enter};
pub use error::EntryError;
