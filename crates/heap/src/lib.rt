//! A heap of cells with four slots each, roots and holds, and the calls of a program that uses it.
#![tactic(auto)]

mod bits;
mod checks;
mod graph;
mod heap;
mod holds;
mod look;
mod new_cell;
mod picture;
mod roots;
mod size;
mod store;
mod token;
mod writes;

pub use heap::Heap;
pub use refusals::Refusal;
pub use token::{Token, Unreleased};
