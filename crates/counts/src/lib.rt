//! Counts of references, which tell a number up to a ceiling of their kind and are stuck above it.
#![tactic(auto)]

mod count;
mod exact;
mod sticky;
mod tally;

pub use count::Count;
pub use exact::{Exact, ExactRow};
pub use sticky::{Sticky, StickyRow};
pub use tally::{Tally, TallyRow};
