// A closed book: its records and weight can be read, and nothing else can be done with it.
ghost use Rattle.std.specs.Prelude.{◌≡◌, ◌≤◌};
ghost use Rattle.book.specs.Stock.{records_of};

use crate::table::Table;
use crate::{Book, Record};
use lock::Lock;

#[derive(Drop)]
pub struct Closed {
    table: Table,
    ghost within: { table.len ≤ 256 },
}

impl<L: Lock + Drop> Book<L> {
    // Takes the open book, which cannot be used again.
    pub fn close(self) -> Closed
        ensures { result.table ≡ self.table }
    {
        let Book { lock: _, table } = self;
        Closed { table }
    }
}

// The same readings as of an open book, which is another type so that nothing else can be done with a closed one.
impl Closed {
    // The records in the order of their entry.
    pub fn records(&self) -> &[Record]
        ensures { result.now ≡ records_of self.now.table }
    {
        self.table.filled()
    }

    pub fn weight(&self) -> u32
        ensures { result ≡ self.now.table.weight }
    {
        self.table.weight
    }
}
