ghost use Rattle.std.specs.Prelude.{◌≡◌};
ghost use Rattle.ticket.specs.Accesses.{stage_at, new_words, label, place, mark, come, leave, accessed};
ghost use Rattle.ticket.specs.Distance.{turn_at, distance};
ghost use Rattle.ticket.specs.Facts.{Holds};

use lock::{Algorithm, Answer, Place, Refusal, Ruled, item_or, put_item};
use queue::Stage;

// The access that a worker has before it; at W1 with the ticket that it drew.
#[derive(Clone, Copy)]
pub enum Label {
    Out,
    W0,
    W1(u32),
    W2,
    Inside,
    X0,
    X1,
}

impl Label {
    pub fn stage(self) -> Stage
        ensures { result ≡ stage_at self }
    {
        match self {
            Label::Out => Stage::Away,
            Label::W0 => Stage::Coming,
            Label::W1(_) => Stage::Queued,
            Label::W2 => Stage::Ready,
            Label::Inside => Stage::Within,
            Label::X0 => Stage::Leaving(5),
            Label::X1 => Stage::Leaving(4),
        }
    }
}

// The shared words, and each worker's label.
#[derive(Drop)]
pub struct Words {
    pub next: u32,
    pub serving: u32,
    pub holder: Option<u8>,
    pub at: [Label; 16],
}

impl Words {
    fn label(&self, w: u8) -> Label
        ensures { result ≡ label self.now w }
    {
        item_or(&self.at, w, Label::Out)
    }

    // Whether the ticket that is served is that of a worker at the label, drawn or next to be drawn.
    fn turn(&self, label: Label) -> bool
        ensures { result ≡ turn_at self.now.next self.now.serving label }
    {
        match label {
            Label::W0 => self.serving == self.next,
            Label::W1(ticket) => self.serving == ticket,
            Label::Out | Label::W2 | Label::Inside | Label::X0 | Label::X1 => false,
        }
    }
}

impl Algorithm for Words {
    const BOUND: u32 = 5;

    ghost BOUND = { 5 };

    ghost place_of = { place };

    ghost distance_of = { distance };

    ghost shows = { mark };

    ghost new = { new_words };

    ghost come = { come };

    ghost leave = { leave };

    ghost access = { accessed };

    ghost Holds = { Holds };

    fn place_of(&self, w: u8) -> Place {
        self.label(w).stage().place()
    }

    fn distance_of(&self, w: u8) -> Option<u32> {
        let label = self.label(w);
        label.stage().distance(self.turn(label))
    }

    fn shows(&self, w: u8) -> bool {
        self.holder == Some(w)
    }

    fn new() -> Words {
        Words {
            next: 0,
            serving: 0,
            holder: None,
            at: [Label::Out; 16],
        }
    }

    fn come(&mut self, w: u8) {
        put_item(&mut self.at, w, Label::W0);
    }

    fn leave(&mut self, w: u8) {
        put_item(&mut self.at, w, Label::X0);
    }

    fn access(&mut self, w: u8) -> Result<Answer, Refusal> {
        match self.label(w) {
            Label::W0 => {
                let ticket = self.next;
                self.next = ticket.wrapping_add(1);
                put_item(&mut self.at, w, Label::W1(ticket));
                Ok(Answer::Done)
            }
            Label::W1(ticket) if self.serving == ticket => {
                put_item(&mut self.at, w, Label::W2);
                Ok(Answer::Done)
            }
            Label::W1(_) => Ok(Answer::Done),
            Label::W2 => {
                self.holder = Some(w);
                put_item(&mut self.at, w, Label::Inside);
                Ok(Answer::Entered)
            }
            Label::X0 => {
                self.holder = None;
                put_item(&mut self.at, w, Label::X1);
                Ok(Answer::Done)
            }
            Label::X1 => {
                self.serving = self.serving.wrapping_add(1);
                put_item(&mut self.at, w, Label::Out);
                Ok(Answer::Left)
            }
            Label::Out | Label::Inside => Err(Refusal::Idle),
        }
    }
}

impl Ruled for Words {
    fn keeps_rules() {}
}
