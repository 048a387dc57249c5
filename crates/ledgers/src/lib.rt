//! Ledgers of reference counts: what a ledger means, and the bottom ledger, which keeps a count for each cell.
#![tactic(auto)]

mod bottom;
mod ledger;
mod range;
mod rows;
mod theorem;

pub use bottom::Bottom;
pub use ledger::{Ledger, TooManyCells};
pub use range::in_range;
pub use theorem::bottom_ceiling;
