// The lock of Mellor-Crummey and Scott: a worker waits at its own node.
#![tactic(auto)]

mod words;

use lock::Spinlock;
use words::Words;

pub type Mcs = Spinlock<Words>;
