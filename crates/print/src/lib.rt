// Lines of key=value and decimal numbers, printed into the host's memory.
#![tactic(auto)]

mod line;
mod sink;
mod writing;

pub use line::{put_line, put_number_line};
pub use sink::Sink;
pub use writing::{Printable, write};
