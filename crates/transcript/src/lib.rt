// What is said of a schedule: the answers and what they left, or why its text was turned down.
#![tactic(auto)]

mod answers;
mod state;

pub use answers::{write_fault, write_transcript};
pub use state::{Ending, Refused, Transcript};
