ghost use Rattle.std.specs.Prelude.{◌≡◌, Some};
ghost use Rattle.text.specs.Faults.{fault_number, fault_line, fault_words};

use crate::MOST_BYTES;
use std::error::Error;
use std::fmt;

// Why a text is turned down, and at which line.
#[derive(Clone, Copy, Debug, PartialEq, Eq)]
pub enum Fault {
    // a line whose key is not the expected one
    Key { line: u32 },
    // a value that is not allowed
    Value { line: u32 },
    // an event too many
    TooMany { line: u32 },
    // the text ends before the line or inside it
    Ended { line: u32 },
    // too many bytes
    TooLong,
}

impl Fault {
    pub fn number(self) -> u8
        ensures { result ≡ fault_number self }
    {
        match self {
            Fault::Key { .. } => 11,
            Fault::Value { .. } => 12,
            Fault::TooMany { .. } => 13,
            Fault::Ended { .. } => 14,
            Fault::TooLong => 15,
        }
    }

    // The line of the fault, 0 for the whole text.
    pub fn line(self) -> u32
        ensures { result ≡ fault_line self }
    {
        match self {
            Fault::Key { line }
            | Fault::Value { line }
            | Fault::TooMany { line }
            | Fault::Ended { line } => line,
            Fault::TooLong => 0,
        }
    }
}

impl fmt::Display for Fault {
    ghost output = { λ f. Some (fault_words f) };

    fn fmt<W: fmt::Write>(&self, f: &mut fmt::Formatter<W>) -> fmt::Result {
        match self {
            Fault::Key { line } => write!(f, "line {line}: not the expected key"),
            Fault::Value { line } => write!(f, "line {line}: not an allowed value"),
            Fault::TooMany { line } => write!(f, "line {line}: an event too many"),
            Fault::Ended { line } => write!(f, "line {line}: the text ends"),
            Fault::TooLong => write!(f, "more than {MOST_BYTES} bytes"),
        }
    }
}

impl Error for Fault {}
