// The law of a book's life: of a run of events on a new book, and of the calls that a host makes itself.
ghost use Rattle.std.specs.Prelude.{length};
ghost use Rattle.list.specs.Held.{list_items};
ghost use Rattle.book.specs.History.{History};
ghost use Rattle.book.specs.Life.{Life};
ghost use Rattle.book.specs.Law.{Law};
ghost use Rattle.book.specs.Ran.{IfRoom, Ran};

use crate::{Book, Event};
use list::{List, Memory};
use lock::{Answer, Lock, Refusal};

// Makes every call in order, and hands back the book. The list is emptied first, and then has one
// answer for each event; where it cannot hold them, nothing is written.
pub fn run<L: Lock + Drop>(
    events: &[Event],
    answers: &mut List<'_, Result<Answer, Refusal>>,
) -> Result<Book<L>, Memory>
    ensures { IfRoom (length events.now)
        (λ book. ∥ Ran L.Lock events.now (list_items answers.new) book ∥₁) answers.old answers.new result }
{
    if answers.room() < events.len() {
        return Err(Memory::TooShort);
    }
    answers.clear();
    let mut book = Book::new();
    for event in events {
        answers.push(book.call(*event))?;
    }
    Ok(book)
}

impl<L: Lock> Book<L> {
    // Says only that the law holds of every history that the book may have: its calls so far, one by one.
    pub fn keeps_law(&self)
        ensures { (h : History) → Life L.Lock h self.now → Law L.Lock h self.now }
    {}
}
