ghost use Rattle.std.specs.Prelude.{◌≡◌};

use lock::{Algorithm, Answer, Place, Refusal, Ruled, item_or, put_item};

// The shared word and each worker's label, which here is its place: a waiting worker has the one
// access W0 before it, a leaving worker the one access X0.
#[derive(Drop)]
pub struct Words {
    pub holder: Option<u8>,
    pub at: [Place; 16],
}

impl Algorithm for Words {
    ghost use Rattle.tas.specs.Accesses.{Holds, new_words, label, mark, come, leave, accessed};
    ghost use Rattle.tas.specs.Distance.{distance};

    const BOUND: u32 = 2;

    ghost BOUND = { 2 };

    ghost place_of = { label };

    ghost distance_of = { distance };

    ghost shows = { mark };

    ghost new = { new_words };

    ghost come = { come };

    ghost leave = { leave };

    ghost access = { accessed };

    ghost Holds = { Holds };

    fn place_of(&self, w: u8) -> Place {
        item_or(&self.at, w, Place::Out)
    }

    fn distance_of(&self, w: u8) -> Option<u32> {
        match (self.place_of(w), self.holder) {
            (Place::Leaving, _) => Some(2),
            (Place::Waiting, None) => Some(1),
            _ => None,
        }
    }

    fn shows(&self, w: u8) -> bool {
        self.holder == Some(w)
    }

    fn new() -> Words {
        Words {
            holder: None,
            at: [Place::Out; 16],
        }
    }

    fn come(&mut self, w: u8) {
        put_item(&mut self.at, w, Place::Waiting);
    }

    fn leave(&mut self, w: u8) {
        put_item(&mut self.at, w, Place::Leaving);
    }

    fn access(&mut self, w: u8) -> Result<Answer, Refusal> {
        match self.place_of(w) {
            Place::Waiting if self.holder.is_none() => {
                self.holder = Some(w);
                put_item(&mut self.at, w, Place::Inside);
                Ok(Answer::Entered)
            }
            Place::Waiting => Ok(Answer::Done),
            Place::Leaving => {
                self.holder = None;
                put_item(&mut self.at, w, Place::Out);
                Ok(Answer::Left)
            }
            Place::Out | Place::Inside => Err(Refusal::Idle),
        }
    }
}

impl Ruled for Words {
    fn keeps_rules() {}
}
