//! The transaction queue: a layer over any ledger that holds notes back, in order.
#![tactic(auto)]

mod acts;
mod queue;

pub use queue::{Note, Notes, Queue};
