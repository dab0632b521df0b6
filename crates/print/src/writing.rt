// Texts as a whole, written into the host's memory.
ghost use Rattle.std.specs.Prelude.{ℕ, ◌-◌, List as Bytes, Some, None};
ghost use Rattle.list.specs.Held.{list_len, list_room};
ghost use Rattle.print.specs.Printed.{Printed};
ghost use Rattle.print.specs.Overwrite.{Overwrites};

use crate::Sink;
use list::{List, Memory};

// A text that is printed. `fmt::Display` and `fmt::Write` would do, but promise nothing of a refusal:
// here it comes exactly where the text does not fit.
pub trait Printable {
    // The bytes that are printed.
    ghost shown: { Self → Bytes ℕ };

    fn print<S: Sink>(&self, sink: &mut S) -> Result<(), Memory>
        ensures { Printed (S.Sink.page sink.old) (shown self.now) result (S.Sink.page sink.new) };
}

// Takes so many bytes, and keeps none.
#[derive(Drop)]
struct Budget {
    left: usize,
}

impl Sink for Budget {
    ghost page = { λ b. record { space = b.left; list = None } };

    fn put(&mut self, bytes: &[u8]) -> Result<(), Memory> {
        let left = self.left.checked_sub(bytes.len());
        self.left = left.ok_or(Memory::TooShort)?;
        Ok(())
    }
}

impl Sink for List<'_, u8> {
    ghost page = { λ l. record { space = list_room l - list_len l; list = Some l } };

    fn put(&mut self, bytes: &[u8]) -> Result<(), Memory> {
        for b in bytes {
            self.push(*b)?;
        }
        Ok(())
    }
}

// Writes the text at the front of the memory, and answers its length. The bytes are counted before
// any is written.
pub fn write<T: Printable>(text: &T, memory: &mut [u8]) -> Result<usize, Memory>
    ensures { Overwrites (T.Printable.shown text.now) memory.old result memory.new }
{
    let mut budget = Budget { left: memory.len() };
    text.print(&mut budget)?;
    let mut list = List::new(memory);
    text.print(&mut list)?;
    Ok(list.len())
}
