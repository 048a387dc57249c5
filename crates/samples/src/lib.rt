//! The samples: small cases whose outcome is known beforehand, shown of the definitions and played with the code.
#![tactic(auto)]

mod of_counts;

pub use of_counts::{CountAnswers, play_counts};
