ghost use Rattle.std.specs.Prelude.{[]};
ghost use Rattle.book.specs.declared.call.Call.{Call};
ghost use Rattle.book.specs.Life.{Called, Life};

use book::{Book, Call};
use lock::{Answer, Lock, Refusal};

// A book over any book: what is asked of each call is what the law of a book's life rests on.
#[derive(Drop)]
pub struct BookProxy<L> {
    inner: Book<L>,
}

impl<L: Lock> BookProxy<L> {
    pub fn new() -> BookProxy<L>
        ensures { Life L.Lock [] result.inner }
    {
        BookProxy { inner: Book::new() }
    }

    pub fn lock(&mut self, w: u8) -> Result<Answer, Refusal>
        ensures { Called L.Lock Call.Lock w result self.old.inner self.new.inner }
    {
        self.inner.lock(w)
    }

    pub fn unlock(&mut self, w: u8) -> Result<Answer, Refusal>
        ensures { Called L.Lock Call.Unlock w result self.old.inner self.new.inner }
    {
        self.inner.unlock(w)
    }

    pub fn step(&mut self, w: u8) -> Result<Answer, Refusal>
        ensures { Called L.Lock Call.Step w result self.old.inner self.new.inner }
    {
        self.inner.step(w)
    }

    pub fn look(&mut self, w: u8, chest: u32, grams: u32) -> Result<Answer, Refusal>
        ensures { Called L.Lock (Call.Look chest grams) w result self.old.inner self.new.inner }
    {
        self.inner.look(w, chest, grams)
    }

    pub fn enter(&mut self, w: u8) -> Result<Answer, Refusal>
        ensures { Called L.Lock Call.Enter w result self.old.inner self.new.inner }
    {
        self.inner.enter(w)
    }
}
