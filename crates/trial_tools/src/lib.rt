//! What trials share: pseudo-random numbers, the kinds of count, and stacks by name.
#![tactic(auto)]

mod kinds;
mod random;
mod stack;

pub use kinds::{Kind, KindName};
pub use random::Random;
pub use stack::{Layer, Stack};
