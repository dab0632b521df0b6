ghost use Rattle.lock.specs.Algorithms.{Lawful};

use crate::Algorithm;

// An algorithm by which a lock keeps the rules.
pub trait Ruled: Algorithm {
    // No code: its contract says that the rules are kept.
    fn keeps_rules()
        ensures { Lawful Self.Algorithm };
}
