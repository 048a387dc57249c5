//! The coalescing log: a ledger over another that keeps, of each slot that changed, its first and its latest content.
#![tactic(auto)]

mod log;

pub use log::{Entries, Entry, Log};
