// Hosts that make the calls on a book themselves, over any lock.
ghost use Rattle.std.specs.Prelude.{◌≡◌, [], ◌∷◌};
ghost use Rattle.book.specs.declared.call.Call.{Call};
ghost use Rattle.book.specs.Ran.{Ran};
ghost use Rattle.book.specs.Stock.{entered};
ghost use Rattle.lock.specs.Rules.{place_at};

use book::{Book, Call, Closed};
use lock::{Answer, Lock, Refusal};

// What a turn at a new book answers, call by call: the same law holds of it as of a run.
pub struct Turned<L> {
    pub book: Book<L>,
    pub locked: Result<Answer, Refusal>,
    pub stepped: Result<Answer, Refusal>,
    pub looked: Result<Answer, Refusal>,
}

pub fn one_chest<L: Lock>(w: u8, chest: u32, grams: u32) -> Turned<L>
    ensures { ∥ Ran L.Lock
        (record { worker = w; call = Call.Lock } ∷ (record { worker = w; call = Call.Step } ∷ (record { worker = w; call = Call.Look chest grams } ∷ [])))
        (result.locked ∷ (result.stepped ∷ (result.looked ∷ []))) result.book ∥₁ }
{
    let mut book: Book<L> = Book::new();
    let locked = book.lock(w);
    let stepped = book.step(w);
    let looked = book.look(w, chest, grams);
    book.keeps_law();
    Turned {
        book,
        locked,
        stepped,
        looked,
    }
}

// A last enter, and then the book is closed: the closed book has what that enter left.
pub fn close_after<L: Lock + Drop>(mut book: Book<L>, w: u8) -> (Result<Answer, Refusal>, Closed)
    ensures { (result.1.table, result.0) ≡ entered (place_at (L.places book.lock) w) w book.table }
{
    let answer = book.enter(w);
    let closed = book.close();
    (answer, closed)
}
