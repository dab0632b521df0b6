ghost use Rattle.std.specs.Prelude.{◌≡◌, ℕ, List, replicate, Option};
ghost use Rattle.lock.specs.declared.place.Place.{Place};
ghost use Rattle.lock.specs.declared.place.Place.TheVariants.{Out};
ghost use Rattle.lock.specs.Rules.{Obeys, Sound, place_at, place_answer, locking, unlocking, stepping};
ghost use Rattle.lock.specs.Calls.{index_answer};

use crate::{Answer, Place, Refusal};

// A lock for sixteen workers. Any number of 8 bits may be passed as a worker's.
pub trait Lock: Sized {
    // The largest distance that `due` answers.
    const BOUND: u32;

    ghost BOUND: { ℕ };

    // Where each of the sixteen workers is.
    ghost places: { Self → List Place };

    // Who is due and how far off, if anybody is.
    ghost pair: { Self → Option (ℕ × ℕ) };

    fn new() -> Self
        ensures { places result ≡ replicate 16 Out };

    fn lock(&mut self, w: u8) -> Result<Answer, Refusal>
        ensures { Obeys places pair locking w result self.old self.new };

    fn unlock(&mut self, w: u8) -> Result<Answer, Refusal>
        ensures { Obeys places pair unlocking w result self.old self.new };

    fn step(&mut self, w: u8) -> Result<Answer, Refusal>
        ensures { Obeys places pair stepping w result self.old self.new };

    fn place(&self, w: u8) -> Result<Place, Refusal>
        ensures { result ≡ place_answer (place_at (places self.now)) w };

    fn due(&self) -> Option<(u8, u32)>
        ensures { result ≡ pair self.now };

    ghost sound: { (s : Self) → Sound BOUND (places s) (pair s) };
}

// The worker's index among the sixteen.
pub fn index_of(w: u8) -> Result<usize, Refusal>
    ensures { result ≡ index_answer w }
{
    if w < 16 {
        Ok(usize::from(w))
    } else {
        Err(Refusal::NoWorker)
    }
}
