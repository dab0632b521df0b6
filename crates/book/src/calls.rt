// The calls on an open book.
ghost use Rattle.std.specs.Prelude.{◌≡◌, []};
ghost use Rattle.lock.specs.Rules.{place_at};
ghost use Rattle.book.specs.declared.call.Call.{Call};
ghost use Rattle.book.specs.Causes.{inside_answer};
ghost use Rattle.book.specs.Life.{Called, Life};

use crate::table::Table;
use crate::{Book, Call, Event};
use lock::{Answer, Lock, Place, Refusal};

// The most that a chest may weigh.
const MOST_GRAMS: u32 = 1_000_000;

impl<L: Lock> Book<L> {
    // A new book over a new lock.
    #[tactic(auto, using(crate::specs::Life::made))]
    pub fn new() -> Book<L>
        ensures { Life L.Lock [] result }
    {
        Book {
            lock: L::new(),
            table: Table::new(),
        }
    }

    pub fn lock(&mut self, w: u8) -> Result<Answer, Refusal>
        ensures { Called L.Lock Call.Lock w result self.old self.new }
    {
        self.lock.lock(w)
    }

    // An accepted unlock takes the worker's slip away.
    #[tactic(auto, using(crate::proofs::Safe::safe_put))]
    pub fn unlock(&mut self, w: u8) -> Result<Answer, Refusal>
        ensures { Called L.Lock Call.Unlock w result self.old self.new }
    {
        let answer = self.lock.unlock(w)?;
        self.table.put(w, None);
        Ok(answer)
    }

    pub fn step(&mut self, w: u8) -> Result<Answer, Refusal>
        ensures { Called L.Lock Call.Step w result self.old self.new }
    {
        self.lock.step(w)
    }

    // Looks for a chest that is about to be entered with its grams.
    #[tactic(auto, using(crate::proofs::Safe::safe_put))]
    pub fn look(&mut self, w: u8, chest: u32, grams: u32) -> Result<Answer, Refusal>
        ensures { Called L.Lock (Call.Look chest grams) w result self.old self.new }
    {
        self.inside(w)?;
        if grams > MOST_GRAMS {
            return Err(Refusal::Heavy);
        }
        Ok(self.table.look(w, chest, grams))
    }

    // Enters the chest that the worker looked for.
    pub fn enter(&mut self, w: u8) -> Result<Answer, Refusal>
        ensures { Called L.Lock Call.Enter w result self.old self.new }
    {
        self.inside(w)?;
        self.table.enter(w)
    }

    // The call of an event.
    pub fn call(&mut self, event: Event) -> Result<Answer, Refusal>
        ensures { Called L.Lock event.call event.worker result self.old self.new }
    {
        match event.call {
            Call::Lock => self.lock(event.worker),
            Call::Unlock => self.unlock(event.worker),
            Call::Step => self.step(event.worker),
            Call::Look { chest, grams } => self.look(event.worker, chest, grams),
            Call::Enter => self.enter(event.worker),
        }
    }

    // Refuses a worker that is not inside.
    fn inside(&self, w: u8) -> Result<(), Refusal>
        ensures { result ≡ inside_answer (place_at (L.places self.now.lock) w) w }
    {
        match self.lock.place(w)? {
            Place::Inside => Ok(()),
            Place::Out | Place::Waiting | Place::Leaving => Err(Refusal::NotInside),
        }
    }
}
