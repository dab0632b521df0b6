// Runs of the ticket lock and the array lock.
#![tactic(auto)]

ghost use Rattle.queue_tests.specs.Cases.{WrappingTicket, SeventeenthTurn};

// Two runs to the end of a count, as facts of the words.
pub fn counts_wrap()
    ensures ticket { WrappingTicket }
    ensures slot { SeventeenthTurn }
{}

#[cfg(test)]
mod tests {
    use array::Array;
    use lock::{Lock, outcome_number};
    use std::process::Abort;
    use ticket::Ticket;

    fn steps<L: Lock>(rt: &impl Abort, lock: &mut L, w: u8, answers: &[u8]) {
        for answer in answers {
            assert_eq!(rt; outcome_number(lock.step(w)), *answer);
        }
    }

    fn leave<L: Lock>(rt: &impl Abort, lock: &mut L, w: u8, answers: &[u8]) {
        assert_eq!(rt; outcome_number(lock.unlock(w)), 0);
        steps(rt, lock, w, answers);
    }

    // Seventeen turns of one worker, whose answers on the way out are `exits`.
    fn lone<L: Lock>(rt: &impl Abort, lock: &mut L, exits: &[u8]) {
        for _ in 0..17u8 {
            assert_eq!(rt; outcome_number(lock.lock(3)), 0);
            steps(rt, lock, 3, &[0, 0, 20]);
            leave(rt, lock, 3, exits);
        }
    }

    // Three workers that join as 2, 0, 1 enter as 2, 0, 1.
    fn in_order<L: Lock>(rt: &impl Abort, lock: &mut L, exits: &[u8]) {
        for w in 0..3u8 {
            assert_eq!(rt; outcome_number(lock.lock(w)), 0);
        }
        steps(rt, lock, 2, &[0]);
        steps(rt, lock, 0, &[0, 0]);
        steps(rt, lock, 1, &[0, 0]);
        steps(rt, lock, 2, &[0, 20]);
        steps(rt, lock, 0, &[0]);
        leave(rt, lock, 2, exits);
        steps(rt, lock, 1, &[0]);
        steps(rt, lock, 0, &[0, 20]);
        leave(rt, lock, 0, exits);
        steps(rt, lock, 1, &[0, 20]);
        leave(rt, lock, 1, exits);
    }

    // What is turned down, with the worker 0 inside and the worker 1 waiting.
    fn refusals<L: Lock>(rt: &impl Abort, lock: &mut L) {
        assert_eq!(rt; outcome_number(lock.lock(0)), 0);
        steps(rt, lock, 0, &[0, 0, 20]);
        assert_eq!(rt; outcome_number(lock.lock(1)), 0);
        steps(rt, lock, 1, &[0, 0]);
        assert_eq!(rt; outcome_number(lock.unlock(2)), 4);
        assert_eq!(rt; outcome_number(lock.unlock(1)), 2);
        assert_eq!(rt; outcome_number(lock.lock(1)), 2);
        assert_eq!(rt; outcome_number(lock.lock(0)), 3);
        assert_eq!(rt; outcome_number(lock.step(0)), 5);
        assert_eq!(rt; outcome_number(lock.lock(16)), 1);
        assert_eq!(rt; lock.due(), None);
        assert_eq!(rt; outcome_number(lock.lock(15)), 0);
    }

    #[test]
    fn ticket_alone(rt: HostRuntime) {
        let mut lock = Ticket::new();
        assert_eq!(rt; outcome_number(lock.lock(5)), 0);
        assert_eq!(rt; lock.due(), Some((5, 3)));
        steps(&rt, &mut lock, 5, &[0, 0, 20]);
        steps(&rt, &mut lock, 5, &[5]);
        assert_eq!(rt; outcome_number(lock.lock(5)), 3);
        assert_eq!(rt; outcome_number(lock.lock(6)), 0);
        assert_eq!(rt; outcome_number(lock.unlock(5)), 0);
        assert_eq!(rt; lock.due(), Some((5, 5)));
    }

    #[test]
    fn array_alone(rt: HostRuntime) {
        let mut lock = Array::new();
        assert_eq!(rt; outcome_number(lock.lock(5)), 0);
        assert_eq!(rt; lock.due(), Some((5, 3)));
        steps(&rt, &mut lock, 5, &[0, 0, 20, 5]);
        assert_eq!(rt; outcome_number(lock.lock(6)), 0);
        assert_eq!(rt; outcome_number(lock.unlock(5)), 0);
        assert_eq!(rt; lock.due(), Some((5, 4)));
    }

    #[test]
    fn many_turns(rt: HostRuntime) {
        lone(&rt, &mut Ticket::new(), &[0, 21]);
        lone(&rt, &mut Array::new(), &[21]);
    }

    #[test]
    fn first_come(rt: HostRuntime) {
        in_order(&rt, &mut Ticket::new(), &[0, 21]);
        in_order(&rt, &mut Array::new(), &[21]);
    }

    #[test]
    fn turned_down(rt: HostRuntime) {
        refusals(&rt, &mut Ticket::new());
        refusals(&rt, &mut Array::new());
    }
}
