use book::Call::{Enter, Lock, Step, Unlock};
use book::{Book, Call, Event, Record, run};
use list::{List, Memory};
use lock::{Answer, Place, outcome_number};
use std::process::Abort;
use std::test::Fail;
use tas::Tas;

fn look(chest: u32, grams: u32) -> Call {
    Call::Look { chest, grams }
}

fn by(worker: u8, call: Call) -> Event {
    Event { worker, call }
}

// Runs the events, and compares the numbers of their answers.
fn answered(rt: &impl Abort, events: &[Event], numbers: &[u8]) -> Result<(), Fail> {
    let mut memory = [Ok(Answer::Done); 16];
    let mut answers = List::new(&mut memory);
    run::<Tas>(events, &mut answers)?;
    assert_eq!(rt; answers.len(), numbers.len());
    for (answer, number) in answers.as_slice().iter().zip(numbers) {
        assert_eq!(rt; outcome_number(*answer), *number);
    }
    Ok(())
}

#[test]
fn turns(rt: HostRuntime) -> Result<(), Fail> {
    answered(
        &rt,
        &[
            by(0, Lock),
            by(0, Step),
            by(0, Step),
            by(0, Lock),
            by(1, Lock),
            by(1, Step),
            by(1, Unlock),
            by(2, Unlock),
            by(0, Unlock),
            by(0, Lock),
            by(0, Step),
            by(1, Step),
        ],
        &[0, 20, 5, 3, 0, 0, 2, 4, 0, 2, 21, 20],
    )
}

#[test]
fn entries(rt: HostRuntime) -> Result<(), Fail> {
    answered(
        &rt,
        &[
            by(0, look(118, 52000)),
            by(0, Lock),
            by(0, Step),
            by(0, Enter),
            by(1, Enter),
            by(0, look(118, 52000)),
            by(0, Enter),
            by(0, Enter),
            by(0, look(118, 52000)),
            by(0, Enter),
            by(0, Enter),
            by(0, Unlock),
        ],
        &[6, 0, 20, 7, 6, 0, 0, 7, 22, 8, 8, 0],
    )
}

// A slip does not outlast an unlock.
#[test]
fn slip_gone(rt: HostRuntime) -> Result<(), Fail> {
    answered(
        &rt,
        &[
            by(3, Lock),
            by(3, Step),
            by(3, look(7, 1)),
            by(3, Unlock),
            by(3, Step),
            by(3, Lock),
            by(3, Step),
            by(3, Enter),
        ],
        &[0, 20, 0, 0, 21, 0, 20, 7],
    )
}

#[test]
fn limits(rt: HostRuntime) -> Result<(), Fail> {
    answered(
        &rt,
        &[
            by(15, Lock),
            by(16, Lock),
            by(255, look(1, 1000001)),
            by(15, Step),
            by(15, look(1, 1000000)),
            by(15, look(1, 1000001)),
            by(15, Enter),
        ],
        &[0, 1, 1, 20, 0, 9, 0],
    )
}

#[test]
fn full_book(rt: HostRuntime) {
    let mut book: Book<Tas> = Book::new();
    assert_eq!(rt; outcome_number(book.lock(0)), 0);
    assert_eq!(rt; outcome_number(book.step(0)), 20);
    for chest in 0..256u32 {
        assert_eq!(rt; outcome_number(book.look(0, chest, 1000000)), 0);
        assert_eq!(rt; outcome_number(book.enter(0)), 0);
    }
    assert_eq!(rt; outcome_number(book.look(0, 256, 1)), 0);
    assert_eq!(rt; outcome_number(book.enter(0)), 10);
    assert_eq!(rt; book.records().len(), 256);
    assert_eq!(rt; book.weight(), 256000000);
}

// Where a worker is and who is due, and the same records and weight in the closed book.
#[test]
fn closing(rt: HostRuntime) {
    let mut book: Book<Tas> = Book::new();
    assert_eq!(rt; book.due(), None);
    assert_eq!(rt; outcome_number(book.lock(4)), 0);
    assert_eq!(rt; book.due(), Some((4, 1)));
    assert_eq!(rt; book.place(4), Ok(Place::Waiting));
    assert_eq!(rt; outcome_number(book.step(4)), 20);
    assert_eq!(rt; outcome_number(book.look(4, 9, 30)), 0);
    assert_eq!(rt; outcome_number(book.enter(4)), 0);
    let closed = book.close();
    assert_eq!(rt;
        closed.records(),
        [Record {
            chest: 9,
            grams: 30
        }]
        .as_slice()
    );
    assert_eq!(rt; closed.weight(), 30);
}

// Refused before anything is written.
#[test]
fn short_memory(rt: HostRuntime) {
    let mut memory = [Ok(Answer::Found); 1];
    let mut answers = List::new(&mut memory);
    let refused = run::<Tas>(&[by(0, Lock); 2], &mut answers).err();
    assert_eq!(rt; refused.map(Memory::number), Some(16));
    assert_eq!(rt; answers.len(), 0);
    assert_eq!(rt; outcome_number(memory[0]), 22);
}
