// Schedules: a kind of lock and the events on a book over it, read from a text and written into one.
#![tactic(auto)]

mod event;
mod events;
mod kind;
mod round;
mod schedule;
mod written;

pub use kind::Kind;
pub use round::round_trip;
pub use schedule::{MOST_EVENTS, read_schedule};
pub use written::{Schedule, write_schedule};
