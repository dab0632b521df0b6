// A lock of any algorithm: the calls, and when each is refused. Each call that changes something begins with `keeps_rules`, which does
// nothing when it runs: its contract gives the proof the laws of the algorithm.
ghost use Rattle.std.specs.Prelude.{◌≡◌, replicate};
ghost use Rattle.lock.specs.Rules.{Sound, locking, unlocking, stepping, place_answer};
ghost use Rattle.lock.specs.declared.place.Place.TheVariants.{Out};
ghost use Rattle.lock.specs.Algorithms.{places, pair, locked, unlocked, stepped};
ghost use Rattle.lock.specs.Single.{sound_prop};

use crate::{Answer, Distances, Lock, Place, Refusal, Ruled, due_over, index_of};

// The words of the algorithm, with what holds of them at every moment.
#[derive(Drop)]
pub struct Spinlock<A: Ruled> {
    words: A,
    ghost holds: { ∥ A.Holds words ∥₁ },
    ghost sound: { Sound A.BOUND (places A.Algorithm words) (pair A.Algorithm words) } by { sound_prop _ _ _ },
}

impl<A: Ruled> Distances for Spinlock<A> {
    ghost stands = { λ s. A.place_of s.words };

    ghost distances = { λ s. A.distance_of s.words };

    fn place_of(&self, w: u8) -> Place {
        self.words.place_of(w)
    }

    fn distance_of(&self, w: u8) -> Option<u32> {
        self.words.distance_of(w)
    }
}

impl<A: Ruled> Lock for Spinlock<A> {
    ghost use Rattle.lock.specs.Spinlocks.{ObeysRules};

    const BOUND: u32 = A::BOUND;

    ghost BOUND = { A.BOUND };

    ghost places = { λ s. places A.Algorithm s.words };

    ghost pair = { λ s. pair A.Algorithm s.words };

    ghost sound = { λ s. s.sound };

    fn new() -> Spinlock<A>
        ensures words { result.words ≡ A.new }
        ensures out { places A.Algorithm result.words ≡ replicate 16 Out }
    {
        A::keeps_rules();
        Spinlock { words: A::new() }
    }

    fn lock(&mut self, w: u8) -> Result<Answer, Refusal>
        ensures words { (self.new.words, result) ≡ locked A.Algorithm self.old.words w }
        ensures rules { ObeysRules A.Algorithm locking w result self.old self.new }
    {
        A::keeps_rules();
        index_of(w)?;
        match self.words.place_of(w) {
            Place::Out => {
                self.words.come(w);
                Ok(Answer::Done)
            }
            Place::Inside => Err(Refusal::Held),
            Place::Waiting | Place::Leaving => Err(Refusal::Busy),
        }
    }

    fn unlock(&mut self, w: u8) -> Result<Answer, Refusal>
        ensures words { (self.new.words, result) ≡ unlocked A.Algorithm self.old.words w }
        ensures rules { ObeysRules A.Algorithm unlocking w result self.old self.new }
    {
        A::keeps_rules();
        index_of(w)?;
        match self.words.place_of(w) {
            Place::Waiting | Place::Leaving => Err(Refusal::Busy),
            Place::Out | Place::Inside if self.words.shows(w) => {
                self.words.leave(w);
                Ok(Answer::Done)
            }
            Place::Out | Place::Inside => Err(Refusal::NotHeld),
        }
    }

    fn step(&mut self, w: u8) -> Result<Answer, Refusal>
        ensures words { (self.new.words, result) ≡ stepped A.Algorithm self.old.words w }
        ensures rules { ObeysRules A.Algorithm stepping w result self.old self.new }
    {
        A::keeps_rules();
        index_of(w)?;
        self.words.access(w)
    }

    fn place(&self, w: u8) -> Result<Place, Refusal>
        ensures { result ≡ place_answer (A.place_of self.now.words) w }
    {
        // The place before the test of the number, so that the number is compared once when it runs.
        let place = self.words.place_of(w);
        index_of(w)?;
        Ok(place)
    }

    fn due(&self) -> Option<(u8, u32)> {
        due_over(self)
    }
}
