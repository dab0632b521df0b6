ghost use Rattle.std.specs.Prelude.{◌≡◌};
ghost use Rattle.array.specs.Accesses.{new_words, worker, label, number, opened, stage_at, place, mark, put, come, leave, accessed};
ghost use Rattle.array.specs.Distance.{turn_at, distance};
ghost use Rattle.array.specs.Facts.{Holds};

use lock::{Algorithm, Answer, Place, Refusal, Ruled, item_or, put_item};
use queue::Stage;

// The access that a worker has before it.
#[derive(Clone, Copy)]
pub enum Label {
    Out,
    W0,
    W1,
    W2,
    Inside,
    X0,
}

impl Label {
    pub fn stage(self) -> Stage
        ensures { result ≡ stage_at self }
    {
        match self {
            Label::Out => Stage::Away,
            Label::W0 => Stage::Coming,
            Label::W1 => Stage::Queued,
            Label::W2 => Stage::Ready,
            Label::Inside => Stage::Within,
            Label::X0 => Stage::Leaving(4),
        }
    }
}

// A worker's own slot number, and its label.
#[derive(Clone, Copy)]
pub struct Worker {
    pub number: Option<u8>,
    pub label: Label,
}

// The shared words, and each worker. A slot is open where it is true.
#[derive(Drop)]
pub struct Words {
    pub next: u32,
    pub slots: [bool; 16],
    pub workers: [Worker; 16],
}

const OUTSIDE: Worker = Worker {
    number: None,
    label: Label::Out,
};

impl Words {
    // Whoever is not among the sixteen is outside.
    fn worker(&self, w: u8) -> Worker
        ensures { result ≡ worker self.now w }
    {
        item_or(&self.workers, w, OUTSIDE)
    }

    fn put(&mut self, w: u8, label: Label)
        ensures { self.new ≡ put self.old w label }
    {
        let number = self.worker(w).number;
        put_item(&mut self.workers, w, Worker { number, label });
    }

    // Whether the slot of a worker at the stage is open, its own or that which it would be given.
    fn turn(&self, stage: Stage, slot: Option<u8>) -> bool
        ensures { result ≡ turn_at self.now.next (opened self.now) stage slot }
    {
        match (stage, slot) {
            (Stage::Coming, _) => self.slots[(self.next % 16) as usize],
            (Stage::Queued, Some(k)) => item_or(&self.slots, k, false),
            _ => false,
        }
    }
}

impl Algorithm for Words {
    const BOUND: u32 = 4;

    ghost BOUND = { 4 };

    ghost place_of = { place };

    ghost distance_of = { distance };

    ghost shows = { mark };

    ghost new = { new_words };

    ghost come = { come };

    ghost leave = { leave };

    ghost access = { accessed };

    ghost Holds = { Holds };

    fn place_of(&self, w: u8) -> Place {
        self.worker(w).label.stage().place()
    }

    fn distance_of(&self, w: u8) -> Option<u32> {
        let Worker { number, label } = self.worker(w);
        let stage = label.stage();
        stage.distance(self.turn(stage, number))
    }

    fn shows(&self, w: u8) -> bool {
        self.worker(w).number.is_some()
    }

    fn new() -> Words {
        let mut slots = [false; 16];
        slots[0] = true;
        Words {
            next: 0,
            slots,
            workers: [OUTSIDE; 16],
        }
    }

    fn come(&mut self, w: u8) {
        self.put(w, Label::W0);
    }

    fn leave(&mut self, w: u8) {
        self.put(w, Label::X0);
    }

    // A worker has a slot number from W1 on; without one it would stay.
    fn access(&mut self, w: u8) -> Result<Answer, Refusal> {
        let Worker { number, label } = self.worker(w);
        match (label, number) {
            (Label::W0, _) => {
                let number = Some((self.next % 16) as u8);
                let label = Label::W1;
                self.next = self.next.wrapping_add(1);
                put_item(&mut self.workers, w, Worker { number, label });
                Ok(Answer::Done)
            }
            (Label::W1, Some(k)) if item_or(&self.slots, k, false) => {
                self.put(w, Label::W2);
                Ok(Answer::Done)
            }
            (Label::W2, Some(k)) => {
                put_item(&mut self.slots, k, false);
                self.put(w, Label::Inside);
                Ok(Answer::Entered)
            }
            (Label::X0, Some(k)) => {
                self.slots[(usize::from(k) + 1) % 16] = true;
                put_item(&mut self.workers, w, OUTSIDE);
                Ok(Answer::Left)
            }
            (Label::W1 | Label::W2 | Label::X0, _) => Ok(Answer::Done),
            (Label::Out | Label::Inside, _) => Err(Refusal::Idle),
        }
    }
}

impl Ruled for Words {
    fn keeps_rules() {}
}
