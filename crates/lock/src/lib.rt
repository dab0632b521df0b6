// What a lock means: places, answers and refusals with their numbers, the trait that every kind of
// lock implements, and who is due.
#![tactic(auto)]

mod algorithm;
mod answer;
mod due;
mod interface;
mod items;
mod place;
mod refusal;
mod ruled;
mod spinlock;

pub use algorithm::Algorithm;
pub use answer::{Answer, outcome_number};
pub use due::{Distances, due_over};
pub use interface::{Lock, index_of};
pub use items::{item_or, put_item};
pub use place::Place;
pub use refusal::Refusal;
pub use ruled::Ruled;
pub use spinlock::Spinlock;
