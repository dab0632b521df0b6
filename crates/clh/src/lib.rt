// The lock of Craig, Landin and Hagersten: a worker waits at the node of the one before it.
#![tactic(auto)]

mod words;

use lock::Spinlock;
use words::Words;

pub type Clh = Spinlock<Words>;
