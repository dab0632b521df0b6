ghost use Rattle.std.specs.Prelude.{◌≡◌, length};
ghost use Rattle.std.specs.List.{flat_map};
ghost use Rattle.print.specs.Overwrite.{Overwrites};
ghost use Rattle.print.specs.Printed.{Printed};
ghost use Rattle.script.specs.Written.{call_text, event_text, look_text, schedule_text, text_of};

use crate::Kind;
use book::{Call, Event};
use list::Memory;
use print::{Printable, Sink, put_line, put_number_line, write};

// A kind of lock, and the events to run on a book over it.
#[derive(Clone, Copy, Debug, PartialEq, Eq)]
pub struct Schedule<'a> {
    pub kind: Kind,
    pub events: &'a [Event],
}

fn put_look<S: Sink>(sink: &mut S, chest: u32, grams: u32) -> Result<(), Memory>
    ensures { Printed (S.Sink.page sink.old) (look_text chest grams) result (S.Sink.page sink.new) }
{
    put_line(sink, b"call", b"look")?;
    put_number_line(sink, b"chest", chest)?;
    put_number_line(sink, b"grams", grams)
}

fn put_call<S: Sink>(sink: &mut S, call: Call) -> Result<(), Memory>
    ensures { Printed (S.Sink.page sink.old) (call_text call) result (S.Sink.page sink.new) }
{
    match call {
        Call::Lock => put_line(sink, b"call", b"lock"),
        Call::Unlock => put_line(sink, b"call", b"unlock"),
        Call::Step => put_line(sink, b"call", b"step"),
        Call::Look { chest, grams } => put_look(sink, chest, grams),
        Call::Enter => put_line(sink, b"call", b"enter"),
    }
}

fn put_event<S: Sink>(sink: &mut S, event: Event) -> Result<(), Memory>
    ensures { Printed (S.Sink.page sink.old) (event_text event) result (S.Sink.page sink.new) }
{
    put_number_line(sink, b"worker", event.worker)?;
    put_call(sink, event.call)
}

fn put_events<S: Sink>(sink: &mut S, events: &[Event]) -> Result<(), Memory>
    ensures { Printed (S.Sink.page sink.old) (flat_map event_text events.now) result (S.Sink.page sink.new) }
{
    for event in events {
        put_event(sink, *event)?;
    }
    Ok(())
}

fn put_schedule<S: Sink>(sink: &mut S, kind: Kind, events: &[Event]) -> Result<(), Memory>
    ensures { Printed (S.Sink.page sink.old) (schedule_text kind events.now) result (S.Sink.page sink.new) }
{
    put_line(sink, b"lock", kind.name())?;
    put_events(sink, events)
}

impl Printable for Schedule<'_> {
    ghost shown = { text_of };

    fn print<S: Sink>(&self, sink: &mut S) -> Result<(), Memory> {
        put_schedule(sink, self.kind, self.events)
    }
}

// Writes a schedule at the front of the memory, and answers its length.
pub fn write_schedule(schedule: &Schedule, memory: &mut [u8]) -> Result<usize, Memory>
    ensures { Overwrites (text_of schedule.now) memory.old result memory.new }
{
    write(schedule, memory)
}
