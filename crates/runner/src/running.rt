ghost use Rattle.std.specs.Prelude.{◌≡◌, ℕ, ◌&&◌, length, nat_lt};
ghost use Rattle.list.specs.Held.{list_items};
ghost use Rattle.book.specs.Ran.{IfRoom};
ghost use Rattle.lock.specs.Rules.{place_at};
ghost use Rattle.lock.specs.Distance.{is_inside as inside};
ghost use Rattle.runner.specs.Ended.{IsInside, Ended, EndedBy};

use array::Array;
use book::{Book, Event, run};
use clh::Clh;
use list::{List, Memory};
use lock::{Answer, Lock, Place, Refusal};
use mcs::Mcs;
use script::Kind;
use tas::Tas;
use ticket::Ticket;
use transcript::Ending;

// Whether the worker is inside.
fn is_inside<L: Lock>(book: &Book<L>, w: u8) -> bool
    ensures { result ≡ (nat_lt w 16 && inside (place_at (L.places book.now.lock) w)) }
{
    matches!(book.place(w), Ok(Place::Inside))
}

// Who is inside.
fn inside_of<L: Lock>(book: &Book<L>) -> Option<u8>
    ensures { IsInside result (place_at (L.places book.now.lock)) }
{
    (0..16u8).find(|w| is_inside(book, *w))
}

// Runs the events over a lock of one kind, and hands on how the book ended.
pub fn run_over<L: Lock + Drop>(
    events: &[Event],
    answers: &mut List<'_, Result<Answer, Refusal>>,
) -> Result<Ending, Memory>
    ensures { IfRoom (length events.now)
        (λ e. ∥ Ended L.Lock events.now (list_items answers.new) e ∥₁) answers.old answers.new result }
{
    let book = run::<L>(events, answers)?;
    let inside = inside_of(&book);
    let chests = book.records().len();
    let grams = book.weight();
    Ok(Ending {
        inside,
        chests,
        grams,
    })
}

// Runs the events over a lock of the kind, each another type. The law of a book's life holds at that kind and its bound.
pub fn run_schedule(
    kind: Kind,
    events: &[Event],
    answers: &mut List<'_, Result<Answer, Refusal>>,
) -> Result<Ending, Memory>
    ensures { IfRoom (length events.now)
        (λ e. ∥ EndedBy kind events.now (list_items answers.new) e ∥₁) answers.old answers.new result }
{
    match kind {
        Kind::Tas => run_over::<Tas>(events, answers),
        Kind::Ticket => run_over::<Ticket>(events, answers),
        Kind::Array => run_over::<Array>(events, answers),
        Kind::Mcs => run_over::<Mcs>(events, answers),
        Kind::Clh => run_over::<Clh>(events, answers),
    }
}
