// The test-and-set lock: one word that is free or names its holder.
#![tactic(auto)]

mod words;

use lock::Spinlock;
use words::Words;

pub type Tas = Spinlock<Words>;
