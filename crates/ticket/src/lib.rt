// The ticket lock: whoever comes draws the next ticket, and enters when it is served.
#![tactic(auto)]

mod words;

use lock::Spinlock;
use words::Words;

pub type Ticket = Spinlock<Words>;
