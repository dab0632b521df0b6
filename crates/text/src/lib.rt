// Lines of key=value and decimal numbers, as they are read from a text.
#![tactic(auto)]

mod fault;
mod field;
mod number;
mod reader;
mod token;

pub use fault::Fault;
pub use number::number_in;
pub use reader::{MOST_BYTES, Reader};
pub use token::{Token, find};
