//! Replays a table of slots, and edits of it, through any ledger.
#![tactic(auto)]

mod acts;
mod replay;
mod stack;
mod table;

pub use acts::replay_table;
pub use replay::{ReplayError, Replayed};
pub use stack::keep;
