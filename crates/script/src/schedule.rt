ghost use Rattle.std.specs.Prelude.{◌≡◌, ◌≤◌, take, IfOk, Ok, Err, MatchResult, OnErr};
ghost use Rattle.list.specs.Held.{KeepsRest, list_items, list_room};
ghost use Rattle.script.specs.Schedule.{Gives, IsSchedule, told};
ghost use Rattle.script.specs.Stages.{Events};
ghost use Rattle.script.specs.Verdicts.{Verdict, Yields};

use crate::Kind;
use crate::events::EventReader;
use book::Event;
use list::List;
use text::{Fault, MOST_BYTES};

// How many events a schedule may have.
pub const MOST_EVENTS: usize = 1_024;

// What the text gives, with at most so many events. Nothing is written yet.
fn survey(text: &[u8], most: usize) -> Result<Kind, Fault>
    ensures { MatchResult result (λ k. ((es : Events) × Yields most (take 32768 text.now) (Ok (k, es)))) (λ f. Yields most (take 32768 text.now) (Err f)) }
{
    let (kind, mut read) = EventReader::open(text, most)?;
    while read.next_event()?.is_some() {}
    Ok(kind)
}

// The events of the text in the list, which is emptied first.
fn fill(text: &[u8], most: usize, events: &mut List<Event>) -> Result<Kind, Fault>
    requires { most ≤ list_room events.old }
    ensures value { Yields most (take 32768 text.now) (told result (list_items events.new)) }
    ensures rest { KeepsRest events.old events.new }
{
    let (kind, mut read) = EventReader::open(text, most)?;
    events.clear();
    while let Some(event) = read.next_event()? {
        let _ = events.push(event);
    }
    Ok(kind)
}

// Reads a schedule into the list, which it empties first. A refused text leaves the list as it was.
pub fn read_schedule(text: &[u8], events: &mut List<Event>) -> Result<Kind, Fault>
    ensures value { Gives (list_room events.old) text.now (told result (list_items events.new)) }
    ensures only { (v : Verdict) → Gives (list_room events.old) text.now v → v ≡ told result (list_items events.new) }
    ensures form { IfOk result (λ k. IsSchedule (list_room events.old) text.now k (list_items events.new)) }
    ensures complete { (k : Kind) (es : Events) → IsSchedule (list_room events.old) text.now k es → (result ≡ Ok k) × (list_items events.new ≡ es) }
    ensures refused { OnErr result (events.new ≡ events.old) }
    ensures rest { KeepsRest events.old events.new }
{
    if text.len() > MOST_BYTES {
        return Err(Fault::TooLong);
    }
    let most = events.room().min(MOST_EVENTS);
    survey(text, most)?;
    fill(text, most, events)
}
