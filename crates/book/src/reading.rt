// What can be asked of an open book.
ghost use Rattle.std.specs.Prelude.{◌≡◌};
ghost use Rattle.lock.specs.Rules.{place_at, place_answer};
ghost use Rattle.book.specs.Stock.{records_of};

use crate::{Book, Record};
use lock::{Lock, Place, Refusal};

impl<L: Lock> Book<L> {
    // The records in the order of their entry.
    pub fn records(&self) -> &[Record]
        ensures { result.now ≡ records_of self.now.table }
    {
        self.table.filled()
    }

    pub fn weight(&self) -> u32
        ensures { result ≡ self.now.table.weight }
    {
        self.table.weight
    }

    // Where the worker is, as the lock says.
    pub fn place(&self, w: u8) -> Result<Place, Refusal>
        ensures { result ≡ place_answer (place_at (L.places self.now.lock)) w }
    {
        self.lock.place(w)
    }

    // Who is due and how far off, as the lock says.
    pub fn due(&self) -> Option<(u8, u32)>
        ensures { result ≡ L.pair self.now.lock }
    {
        self.lock.due()
    }
}
