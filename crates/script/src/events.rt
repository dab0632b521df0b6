ghost use Rattle.std.specs.Prelude.{List as Bytes, ℕ, ◌<◌, [], ◌∷◌, ◌++◌, length, take, Ok, Err, MatchOption, MatchResult};
ghost use Rattle.text.specs.Ahead.{ahead};
ghost use Rattle.script.specs.Stages.{Events, at_lock, at_worker};
ghost use Rattle.script.specs.Verdicts.{Reaches, Yields};
ghost use Rattle.script.specs.Reads.{Reads};

use crate::Kind;
use crate::event::read_event;
use book::Event;
use text::{Fault, Reader};

// The events of a text that are still to be read, of which there may be `room`.
#[derive(Drop)]
pub struct EventReader<'a> {
    pub(crate) reader: Reader<'a>,
    pub(crate) room: usize,
}

fn read_kind(reader: &mut Reader) -> Result<Kind, Fault>
    ensures { (most : ℕ) → Reaches most at_lock (λ k. at_worker k []) result reader.old reader.new }
{
    let line = reader.line();
    let name = reader.value(b"lock")?;
    Kind::named(name).ok_or(Fault::Value { line })
}

impl<'a> EventReader<'a> {
    // The kind of lock that the text names, and its events, of which there may be `most`.
    pub fn open(text: &'a [u8], most: usize) -> Result<(Kind, EventReader<'a>), Fault>
        ensures { MatchResult result (λ p. Reads most (take 32768 text.now) p.0 [] p.1) (λ f. Yields most (take 32768 text.now) (Err f)) }
    {
        let mut reader = Reader::new(text);
        let kind = read_kind(&mut reader)?;
        Ok((kind, EventReader { reader, room: most }))
    }

    // The next event, if there is one. No `Iterator`: one has to come to an end, and a fault does not
    // end this.
    pub fn next_event(&mut self) -> Result<Option<Event>, Fault>
        ensures { (most : ℕ) (text : Bytes ℕ) (k : Kind) (es : Events) → Reads most text k es self.old → MatchResult result (λ o. MatchOption o (Yields most text (Ok (k, es))) (λ e. Reads most text k (es ++ e ∷ []) self.new × (length (ahead self.new.reader) < length (ahead self.old.reader)))) (λ f. Yields most text (Err f)) }
    {
        if self.reader.is_done() {
            return Ok(None);
        }
        let event = read_event(&mut self.reader, self.room)?;
        self.room -= 1;
        Ok(Some(event))
    }
}
