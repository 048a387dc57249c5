//! What holds of every stack of layers.
#![tactic(auto)]

mod theorem;

pub use theorem::{bottom_stack_ceiling, stack_ceiling};
