ghost use Rattle.std.specs.Prelude.{◌≡◌, Some};
ghost use Rattle.lock.specs.Names.{answer_name};
ghost use Rattle.lock.specs.Numbers.{answer_number, outcome_number as numbered};

use crate::Refusal;
use std::fmt;

// What an accepted call answers.
#[derive(Clone, Copy, Debug, PartialEq, Eq)]
pub enum Answer {
    Done = 0,
    Entered = 20,
    Left = 21,
    Found = 22,
}

impl Answer {
    // The number that transcripts write. A method and no `From`, so that a call says which number it is.
    pub fn number(self) -> u8
        ensures { result ≡ answer_number self }
    {
        self as u8
    }

    pub fn name(self) -> &'static str
        ensures { result.now ≡ answer_name self }
    {
        match self {
            Answer::Done => "done",
            Answer::Entered => "entered",
            Answer::Left => "left",
            Answer::Found => "found",
        }
    }
}

// The number of an answer or of a refusal; no two of them have the same. A function, since `From` cannot be
// implemented here for a type of std.
pub fn outcome_number(outcome: Result<Answer, Refusal>) -> u8
    ensures { result ≡ numbered outcome }
{
    match outcome {
        Ok(answer) => answer.number(),
        Err(refusal) => refusal.number(),
    }
}

impl fmt::Display for Answer {
    ghost output = { λ x. Some (answer_name x) };

    fn fmt<W: fmt::Write>(&self, f: &mut fmt::Formatter<W>) -> fmt::Result {
        f.write_str(self.name())
    }
}
