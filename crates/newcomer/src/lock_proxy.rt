use lock::{Answer, Lock, Place, Refusal};

// A lock over any lock. It has no contract of its own: what is asked of it is the trait's.
#[derive(Drop)]
pub struct LockProxy<L> {
    inner: L,
}

impl<L: Lock> Lock for LockProxy<L> {
    const BOUND: u32 = L::BOUND;

    ghost BOUND = { L.BOUND };

    ghost places = { λ s. L.places s.inner };

    ghost pair = { λ s. L.pair s.inner };

    ghost sound = { λ s. L.sound s.inner };

    fn new() -> LockProxy<L> {
        LockProxy { inner: L::new() }
    }

    fn lock(&mut self, w: u8) -> Result<Answer, Refusal> {
        self.inner.lock(w)
    }

    fn unlock(&mut self, w: u8) -> Result<Answer, Refusal> {
        self.inner.unlock(w)
    }

    fn step(&mut self, w: u8) -> Result<Answer, Refusal> {
        self.inner.step(w)
    }

    fn place(&self, w: u8) -> Result<Place, Refusal> {
        self.inner.place(w)
    }

    fn due(&self) -> Option<(u8, u32)> {
        self.inner.due()
    }
}
