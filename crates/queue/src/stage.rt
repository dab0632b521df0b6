ghost use Rattle.std.specs.Prelude.{◌≡◌};
ghost use Rattle.queue.specs.Stages.{place_of, distance_of};

use lock::Place;

// How far a worker has come.
#[derive(Clone, Copy)]
pub enum Stage {
    // out
    Away,
    // wants the lock and has not joined the queue
    Coming,
    // has joined, and waits for its turn
    Queued,
    // has seen its turn
    Ready,
    // inside
    Within,
    // on its way out, with its distance
    Leaving(u32),
}

impl Stage {
    pub fn place(self) -> Place
        ensures { result ≡ place_of self }
    {
        match self {
            Stage::Away => Place::Out,
            Stage::Coming | Stage::Queued | Stage::Ready => Place::Waiting,
            Stage::Within => Place::Inside,
            Stage::Leaving(_) => Place::Leaving,
        }
    }

    // How far off the worker is, where `turn` says whether the turn is its own.
    pub fn distance(self, turn: bool) -> Option<u32>
        ensures { result ≡ distance_of self turn }
    {
        match self {
            Stage::Leaving(d) => Some(d),
            Stage::Coming if turn => Some(3),
            Stage::Queued if turn => Some(2),
            Stage::Ready => Some(1),
            Stage::Away | Stage::Coming | Stage::Queued | Stage::Within => None,
        }
    }
}
