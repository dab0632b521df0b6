ghost use Rattle.text.specs.Lines.{line_text};
ghost use Rattle.print.specs.Printed.{Printed};

use crate::Sink;
use itoa::{Buffer, Integer};
use list::Memory;

// Prints a line.
#[tactic(auto, using(crate::proofs::Appending::line))]
pub fn put_line<S: Sink>(sink: &mut S, key: &[u8], value: &[u8]) -> Result<(), Memory>
    ensures { Printed (S.Sink.page sink.old) (line_text key.now value.now) result (S.Sink.page sink.new) }
{
    sink.put(key)?;
    sink.put(b"=")?;
    sink.put(value)?;
    sink.put(b"\n")
}

// Prints a line whose value is a number.
pub fn put_number_line<S: Sink, N: Integer>(sink: &mut S, key: &[u8], n: N) -> Result<(), Memory>
    ensures { Printed (S.Sink.page sink.old) (line_text key.now (N.text n)) result (S.Sink.page sink.new) }
{
    put_line(sink, key, Buffer::new().format(n).as_bytes())
}
