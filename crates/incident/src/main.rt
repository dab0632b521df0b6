// The incident that the locks are for, on a lock that marks its holder. Worker 3 is about to enter a
// chest when the error path of worker 9 unlocks without having locked; worker 7 brings the same chest
// again. The unlock is refused with 4, nobody gets in between, and the chest enters stock once.
#![tactic(auto)]

use book::{Book, Call, Closed, Event, Record, run};
use list::List;
use lock::{Answer, Lock, Refusal, outcome_number};
use std::io;
use tas::Tas;

const CHEST: Call = Call::Look {
    chest: 118,
    grams: 52_000,
};

const ANOTHER: Call = Call::Look {
    chest: 119,
    grams: 48_000,
};

// What each worker does, in the order in which the executive lets them.
const SCRIPT: [(u8, Call); 19] = [
    (3, Call::Lock),
    (7, Call::Lock),
    (3, Call::Step),
    (3, CHEST),
    (9, Call::Unlock),
    (7, Call::Step),
    (7, CHEST),
    (3, Call::Enter),
    (3, Call::Unlock),
    (3, Call::Step),
    (7, Call::Step),
    (7, CHEST),
    (7, Call::Enter),
    (9, Call::Unlock),
    (7, ANOTHER),
    (7, Call::Enter),
    (7, Call::Unlock),
    (7, Call::Enter),
    (7, Call::Step),
];

fn print_call(rt: &HostRuntime, event: Event) -> io::Result<()> {
    let worker = event.worker;
    match event.call {
        Call::Lock => print!(rt; "worker {worker} lock: "),
        Call::Unlock => print!(rt; "worker {worker} unlock: "),
        Call::Step => print!(rt; "worker {worker} step: "),
        Call::Look { chest, grams } => print!(rt;
            "worker {worker} look for chest {chest}, {grams} g: "
        ),
        Call::Enter => print!(rt; "worker {worker} enter: "),
    }
}

fn print_outcome(rt: &HostRuntime, outcome: Result<Answer, Refusal>) -> io::Result<()> {
    let number = outcome_number(outcome);
    match outcome {
        Ok(answer) => println!(rt; "{number} ({answer})"),
        Err(refusal) => println!(rt; "refused with {number} ({refusal})"),
    }
}

// Where the three workers are, and who is due.
fn print_places<L: Lock>(rt: &HostRuntime, book: &Book<L>) -> io::Result<()> {
    for worker in [3, 7, 9] {
        if let Ok(place) = book.place(worker) {
            print!(rt; "  {worker} {place}")?;
        }
    }
    match book.due() {
        Some((worker, distance)) => println!(rt; "  due {worker} at {distance}"),
        None => println!(rt; "  due none"),
    }
}

// The same calls as one list of events.
fn events() -> [Event; 19] {
    SCRIPT.map(|(worker, call)| Event { worker, call })
}

// Makes the calls one by one, and prints each with its answer.
fn step_by_step(rt: &HostRuntime) -> io::Result<()> {
    let mut book: Book<Tas> = Book::new();
    for event in events() {
        let outcome = book.call(event);
        print_call(rt, event)?;
        print_outcome(rt, outcome)?;
        print_places(rt, &book)?;
    }
    Ok(())
}

// Makes them again in one run, to which the law of a book's life applies, and prints what is in stock.
fn whole_run(rt: &HostRuntime) -> anyhow::Result<()> {
    let mut memory = [Ok(Answer::Done); 19];
    let mut answers = List::new(&mut memory);
    let book = run::<Tas>(&events(), &mut answers)?;
    print!(rt; "answers of the run:")?;
    for outcome in answers.as_slice() {
        let number = outcome_number(*outcome);
        print!(rt; " {number}")?;
    }
    println!(rt; "")?;
    print_stock(rt, book.close())?;
    Ok(())
}

fn print_stock(rt: &HostRuntime, book: Closed) -> io::Result<()> {
    for record in book.records() {
        let Record { chest, grams } = *record;
        println!(rt; "record: chest {chest}, {grams} g")?;
    }
    let weight = book.weight();
    println!(rt; "weight: {weight} g")
}

fn main(rt: HostRuntime) -> anyhow::Result<()> {
    step_by_step(&rt)?;
    whole_run(&rt)
}
