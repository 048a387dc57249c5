//! Why a call on the heap is refused.
#![tactic(auto)]

mod refusal;

pub use refusal::Refusal;
