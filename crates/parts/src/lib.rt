//! Drawings as text: the parts by name, which part points to which, and edits of that.
#![tactic(auto)]

mod drawing;
mod edits;
mod fault;
mod kinds;
mod lookup;
mod names;
mod reader;
mod text;

pub use drawing::Drawing;
pub use edits::{Edit, read_edits};
pub use fault::{Fault, ReadError};
pub use lookup::{LineKind, find_line};
pub use reader::read;
