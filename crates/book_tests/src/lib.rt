// Hosts of a book, and runs of one over the test-and-set lock.
#![tactic(auto)]

mod host;
#[cfg(test)]
mod runs;

pub use host::{close_after, one_chest};
