ghost use Rattle.std.specs.Prelude.{◌≡◌};
ghost use Rattle.std.specs.List.{flat_map};
ghost use Rattle.print.specs.Overwrite.{Overwrites};
ghost use Rattle.print.specs.Printed.{Printed};
ghost use Rattle.transcript.specs.Transcribed.{answer_text, ending_text, fault_text, inside_text, misuses, run_text};

use crate::{Ending, Refused, Transcript};
use list::Memory;
use lock::{Answer, Refusal, outcome_number};
use print::{Printable, Sink, put_line, put_number_line, write};
use text::Fault;

// How many answers are the refusal of an unlock by a worker that holds nothing.
fn misuse_count(answers: &[Result<Answer, Refusal>]) -> usize
    ensures { result ≡ misuses answers.now }
{
    answers
        .iter()
        .filter(|answer| **answer == Err(Refusal::NotHeld))
        .count()
}

fn put_answers<S: Sink>(sink: &mut S, answers: &[Result<Answer, Refusal>]) -> Result<(), Memory>
    ensures { Printed (S.Sink.page sink.old) (flat_map answer_text answers.now) result (S.Sink.page sink.new) }
{
    for answer in answers {
        put_number_line(sink, b"answer", outcome_number(*answer))?;
    }
    Ok(())
}

fn put_inside<S: Sink>(sink: &mut S, inside: Option<u8>) -> Result<(), Memory>
    ensures { Printed (S.Sink.page sink.old) (inside_text inside) result (S.Sink.page sink.new) }
{
    match inside {
        Some(worker) => put_number_line(sink, b"inside", worker),
        None => put_line(sink, b"inside", b"none"),
    }
}

fn put_ending<S: Sink>(sink: &mut S, ending: Ending, misuse: usize) -> Result<(), Memory>
    ensures { Printed (S.Sink.page sink.old) (ending_text ending misuse) result (S.Sink.page sink.new) }
{
    put_inside(sink, ending.inside)?;
    put_number_line(sink, b"misuse", misuse)?;
    put_number_line(sink, b"chests", ending.chests)?;
    put_number_line(sink, b"grams", ending.grams)
}

fn put_run<S: Sink>(
    sink: &mut S,
    answers: &[Result<Answer, Refusal>],
    ending: Ending,
) -> Result<(), Memory>
    ensures { Printed (S.Sink.page sink.old) (run_text answers.now ending) result (S.Sink.page sink.new) }
{
    put_answers(sink, answers)?;
    put_ending(sink, ending, misuse_count(answers))
}

fn put_fault<S: Sink>(sink: &mut S, fault: Fault) -> Result<(), Memory>
    ensures { Printed (S.Sink.page sink.old) (fault_text fault) result (S.Sink.page sink.new) }
{
    put_number_line(sink, b"fault", fault.number())?;
    put_number_line(sink, b"line", fault.line())
}

impl Printable for Transcript<'_> {
    ghost shown = { λ t. run_text t.answers.now t.ending };

    fn print<S: Sink>(&self, sink: &mut S) -> Result<(), Memory> {
        put_run(sink, self.answers, self.ending)
    }
}

impl Printable for Refused {
    ghost shown = { λ t. fault_text t.fault };

    fn print<S: Sink>(&self, sink: &mut S) -> Result<(), Memory> {
        put_fault(sink, self.fault)
    }
}

// Writes the transcript of a run at the front of the memory, and answers its length.
pub fn write_transcript(transcript: &Transcript, memory: &mut [u8]) -> Result<usize, Memory>
    ensures { Overwrites (run_text transcript.now.answers.now transcript.now.ending) memory.old result memory.new }
{
    write(transcript, memory)
}

// Writes the transcript of a refused text likewise.
pub fn write_fault(fault: Fault, memory: &mut [u8]) -> Result<usize, Memory>
    ensures { Overwrites (fault_text fault) memory.old result memory.new }
{
    write(&Refused { fault }, memory)
}
