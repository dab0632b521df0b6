// The array lock: whoever comes takes the next of sixteen slots, and enters when that slot is open.
#![tactic(auto)]

mod words;

use lock::Spinlock;
use words::Words;

pub type Array = Spinlock<Words>;
