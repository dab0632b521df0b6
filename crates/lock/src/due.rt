// Who is due: the worker of the least distance.
ghost use Rattle.std.specs.Prelude.{◌≡◌, ℕ, Option};
ghost use Rattle.lock.specs.declared.place.Place.{Place};
ghost use Rattle.lock.specs.Distance.{nearer as nearer_of, due_of};

use crate::Place;

// What a lock tells of each worker for the due pair to be worked out. A worker above 15 is out and has no distance.
pub trait Distances {
    ghost stands: { Self → ℕ → Place };

    ghost distances: { Self → ℕ → Option ℕ };

    fn place_of(&self, w: u8) -> Place
        ensures { result ≡ stands self.now w };

    fn distance_of(&self, w: u8) -> Option<u32>
        ensures { result ≡ distances self.now w };
}

// The nearer of the best so far and the worker `v`, the best where they are as near.
fn nearer(best: Option<(u8, u32)>, v: u8, distance: Option<u32>) -> Option<(u8, u32)>
    ensures { result ≡ nearer_of best v distance }
{
    match (best, distance) {
        (_, None) => best,
        (None, Some(d)) => Some((v, d)),
        (Some((_, least)), Some(d)) if least <= d => best,
        (Some(_), Some(d)) => Some((v, d)),
    }
}

// Who is due and how far off: nobody where somebody is inside or nobody waits. One loop asks each worker for both its
// place and its distance.
pub fn due_over<D: Distances>(lock: &D) -> Option<(u8, u32)>
    ensures { result ≡ due_of (D.stands lock.now) (D.distances lock.now) }
{
    let mut best = None;
    let mut inside = false;
    let mut waiting = false;
    for v in 0..16u8 {
        match lock.place_of(v) {
            Place::Inside => inside = true,
            Place::Waiting => waiting = true,
            Place::Out | Place::Leaving => {}
        }
        best = nearer(best, v, lock.distance_of(v));
    }
    if inside || !waiting { None } else { best }
}
