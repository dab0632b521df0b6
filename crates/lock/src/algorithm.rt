// What one kind of lock has of its own.
ghost use Rattle.std.specs.Prelude.{◌≡◌, ℕ, Bool, Option};
ghost use Rattle.lock.specs.declared.place.Place.{Place};
ghost use Rattle.lock.specs.Calls.{Outcome};

use crate::{Answer, Place, Refusal};

// The shared words of a kind of lock with the workers' labels, and what an access does to them. A worker
// above 15 is out and has no distance; `Spinlock` passes none to `come`, `leave` or `access`.
pub trait Algorithm: Sized + Drop {
    // The largest distance of a worker that is due.
    const BOUND: u32;

    ghost BOUND: { ℕ };

    ghost place_of: { Self → ℕ → Place };

    // How many accesses at most are left until the worker, or another that it brings on, is inside.
    ghost distance_of: { Self → ℕ → Option ℕ };

    // Whether the mark shows the worker.
    ghost shows: { Self → ℕ → Bool };

    ghost new: { Self };

    // The words after an accepted `lock`.
    ghost come: { Self → ℕ → Self };

    // The words after an accepted `unlock`.
    ghost leave: { Self → ℕ → Self };

    ghost access: { Self → ℕ → Outcome Self };

    // What holds of the words at every moment.
    ghost Holds: { Self → Type 0 };

    fn place_of(&self, w: u8) -> Place
        ensures { result ≡ place_of self.now w };

    fn distance_of(&self, w: u8) -> Option<u32>
        ensures { result ≡ distance_of self.now w };

    fn shows(&self, w: u8) -> bool
        ensures { result ≡ shows self.now w };

    fn new() -> Self
        ensures { result ≡ new };

    fn come(&mut self, w: u8)
        ensures { self.new ≡ come self.old w };

    fn leave(&mut self, w: u8)
        ensures { self.new ≡ leave self.old w };

    // The access that the worker has before it.
    fn access(&mut self, w: u8) -> Result<Answer, Refusal>
        ensures { (self.new, result) ≡ access self.old w };
}
