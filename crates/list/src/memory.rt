ghost use Rattle.std.specs.Prelude.{◌≡◌, Some};
ghost use Rattle.list.specs.Names.{memory_name};
ghost use Rattle.list.specs.Numbers.{memory_number};

use std::error::Error;
use std::fmt;

// Why the host's memory is turned down.
#[derive(Clone, Copy, Debug, PartialEq, Eq)]
pub enum Memory {
    // fewer elements than are needed
    TooShort = 16,
}

impl Memory {
    pub fn number(self) -> u8
        ensures { result ≡ memory_number self }
    {
        self as u8
    }
}

impl fmt::Display for Memory {
    ghost output = { λ x. Some (memory_name x) };

    fn fmt<W: fmt::Write>(&self, f: &mut fmt::Formatter<W>) -> fmt::Result {
        match self {
            Memory::TooShort => f.write_str("memory too short"),
        }
    }
}

impl Error for Memory {}
