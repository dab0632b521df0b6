ghost use Rattle.std.specs.Prelude.{◌≡◌, Some};
ghost use Rattle.lock.specs.Names.{place_name};
ghost use Rattle.lock.specs.Numbers.{place_number};

use std::fmt;

// Where a worker is.
#[derive(Clone, Copy, Debug, PartialEq, Eq)]
pub enum Place {
    Out = 0,
    Waiting = 1,
    Inside = 2,
    Leaving = 3,
}

impl Place {
    pub fn number(self) -> u8
        ensures { result ≡ place_number self }
    {
        self as u8
    }

    pub fn name(self) -> &'static str
        ensures { result.now ≡ place_name self }
    {
        match self {
            Place::Out => "out",
            Place::Waiting => "waiting",
            Place::Inside => "inside",
            Place::Leaving => "leaving",
        }
    }
}

impl fmt::Display for Place {
    ghost output = { λ x. Some (place_name x) };

    fn fmt<W: fmt::Write>(&self, f: &mut fmt::Formatter<W>) -> fmt::Result {
        f.write_str(self.name())
    }
}
