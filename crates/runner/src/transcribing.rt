ghost use Rattle.std.specs.Prelude.{◌≤◌, length, IfOk};
ghost use Rattle.runner.specs.Transcribed.{Performed, Transcribes, Wrote};

use crate::run_schedule;
use book::{Call, Event};
use list::{List, Memory};
use lock::Answer;
use script::{Kind, MOST_EVENTS, read_schedule};
use transcript::{Transcript, write_fault, write_transcript};

// How much memory the programs lend for a transcript, in bytes.
pub const MOST_TRANSCRIPT: usize = 16_384;

// Runs the events, and writes the transcript of the run.
fn perform(kind: Kind, events: &[Event], memory: &mut [u8]) -> Result<usize, Memory>
    requires { length events.now ≤ 1024 }
    ensures { ∥ Wrote (Performed kind events.now) result memory.old memory.new ∥₁ }
{
    let mut room = [Ok(Answer::Done); MOST_EVENTS];
    let mut answers = List::new(&mut room);
    let ending = run_schedule(kind, events, &mut answers)?;
    let transcript = Transcript {
        answers: answers.as_slice(),
        ending,
    };
    write_transcript(&transcript, memory)
}

// Writes the transcript of a text at the front of the memory, and answers its length: any bytes have one.
pub fn transcribe(text: &[u8], memory: &mut [u8]) -> Result<usize, Memory>
    ensures wrote { ∥ Wrote (Transcribes text.now) result memory.old memory.new ∥₁ }
    ensures fits { IfOk result (λ n. n ≤ length memory.new) }
{
    let mut room = [Event {
        worker: 0,
        call: Call::Lock,
    }; MOST_EVENTS];
    let mut events = List::new(&mut room);
    match read_schedule(text, &mut events) {
        Ok(kind) => perform(kind, events.as_slice(), memory),
        Err(fault) => write_fault(fault, memory),
    }
}
