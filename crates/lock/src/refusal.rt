ghost use Rattle.std.specs.Prelude.{◌≡◌, Some};
ghost use Rattle.lock.specs.Names.{refusal_name};
ghost use Rattle.lock.specs.Numbers.{refusal_number};

use std::error::Error;
use std::fmt;

// Why a call is turned down, the smaller number first where several causes apply.
#[derive(Clone, Copy, Debug, PartialEq, Eq)]
pub enum Refusal {
    // a worker above 15
    NoWorker = 1,
    // lock or unlock while waiting or leaving
    Busy = 2,
    // lock while inside
    Held = 3,
    // unlock while out
    NotHeld = 4,
    // step while out or inside
    Idle = 5,
    // look or enter while not inside
    NotInside = 6,
    // enter without a slip
    NoSlip = 7,
    // enter with a slip that says found
    Known = 8,
    // look with too many grams
    Heavy = 9,
    // enter into a full book
    BookFull = 10,
}

impl Refusal {
    pub fn number(self) -> u8
        ensures { result ≡ refusal_number self }
    {
        self as u8
    }

    pub fn name(self) -> &'static str
        ensures { result.now ≡ refusal_name self }
    {
        match self {
            Refusal::NoWorker => "no worker",
            Refusal::Busy => "busy",
            Refusal::Held => "held",
            Refusal::NotHeld => "not held",
            Refusal::Idle => "idle",
            Refusal::NotInside => "not inside",
            Refusal::NoSlip => "no slip",
            Refusal::Known => "known",
            Refusal::Heavy => "heavy",
            Refusal::BookFull => "book full",
        }
    }
}

impl fmt::Display for Refusal {
    ghost output = { λ x. Some (refusal_name x) };

    fn fmt<W: fmt::Write>(&self, f: &mut fmt::Formatter<W>) -> fmt::Result {
        f.write_str(self.name())
    }
}

impl Error for Refusal {}
