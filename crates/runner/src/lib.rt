// Runs schedules: their events on a new book over a new lock of the kind that they name, and the whole way
// from a text to its transcript.
#![tactic(auto)]

mod running;
mod transcribing;

pub use running::{run_over, run_schedule};
pub use transcribing::{MOST_TRANSCRIPT, transcribe};
