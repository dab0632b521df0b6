use lock::{Answer, Refusal};
use text::Fault;

// Who is inside at the end, how many records the book has, and its weight.
#[derive(Clone, Copy, Debug, PartialEq, Eq)]
pub struct Ending {
    pub inside: Option<u8>,
    pub chests: usize,
    pub grams: u32,
}

// A text that was turned down. The fault alone will not do: `Printable` is implemented only for types
// of this crate.
#[derive(Clone, Copy, Debug, PartialEq, Eq)]
pub struct Refused {
    pub fault: Fault,
}

// An answer for each event, and how the run ended.
#[derive(Clone, Copy, Debug, PartialEq, Eq)]
pub struct Transcript<'a> {
    pub answers: &'a [Result<Answer, Refusal>],
    pub ending: Ending,
}
