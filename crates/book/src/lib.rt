// The stock book over any lock: records of chests, their weight, and a slip for each worker inside.
#![tactic(auto)]

mod call;
mod calls;
mod closing;
mod reading;
mod running;
mod table;

ghost use Rattle.book.specs.Stock.{Safe};

pub use call::{Call, Event};
pub use closing::Closed;
pub use running::run;
pub use table::Record;
use table::Table;

// A book over a lock, which is reached only through the book.
#[derive(Drop)]
pub struct Book<L> {
    lock: L,
    table: Table,
    ghost safe: { Safe table },
}
