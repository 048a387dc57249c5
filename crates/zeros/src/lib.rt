//! The zero table: a layer over any ledger that finds the next cell told 0 without a look at the cells.
#![tactic(auto)]

mod acts;
mod bits;
mod zeros;

pub use zeros::Zeros;
