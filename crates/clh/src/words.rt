ghost use Rattle.std.specs.Prelude.{◌≡◌};
ghost use Rattle.clh.specs.Accesses.{place_of as place_at, outside as outside_with, worker as worker_of, before as before_of, node, set_wait, set_prev, put as put_label};

use lock::{Algorithm, Answer, Place, Refusal, Ruled, item_or, put_item};
use rows::Rows;
use std::array;

// The access that a worker has before it; from W2 on with the node before its own.
#[derive(Clone, Copy)]
pub enum Label {
    Out,
    W0,
    W1,
    W2(u8),
    W3(u8),
    Inside,
    X0(u8),
    X1(u8),
}

impl Label {
    fn place(self) -> Place
        ensures { result ≡ place_at self }
    {
        match self {
            Label::Out => Place::Out,
            Label::W0 | Label::W1 | Label::W2(_) | Label::W3(_) => Place::Waiting,
            Label::Inside => Place::Inside,
            Label::X0(_) | Label::X1(_) => Place::Leaving,
        }
    }
}

#[derive(Clone, Copy)]
pub struct Node {
    pub wait: bool,
    pub prev: Option<u8>,
}

#[derive(Clone, Copy)]
pub struct Worker {
    pub own: u8,
    pub label: Label,
}

impl Worker {
    fn outside(own: u8) -> Worker
        ensures { result ≡ outside_with own }
    {
        Worker {
            own,
            label: Label::Out,
        }
    }
}

// The shared words, and each worker with its own node and label.
#[derive(Drop)]
pub struct Words {
    pub tail: u8,
    pub nodes: Rows<Node, 17>,
    pub workers: [Worker; 16],
}

const BLANK: Node = Node {
    wait: false,
    prev: None,
};

impl Words {
    // Whoever is not among the sixteen is outside.
    fn worker(&self, w: u8) -> Worker
        ensures { result ≡ worker_of self.now w }
    {
        item_or(&self.workers, w, Worker::outside(0))
    }

    fn put(&mut self, w: u8, label: Label)
        ensures { self.new ≡ put_label self.old w label }
    {
        let own = self.worker(w).own;
        put_item(&mut self.workers, w, Worker { own, label });
    }

    fn node(&self, n: u8) -> Node
        ensures { result ≡ node self.now n }
    {
        item_or(&self.nodes.items, n, BLANK)
    }

    // The mark: the own node has a `prev`. A leaving worker keeps it in its label.
    fn before(&self, w: u8) -> Option<u8>
        ensures { result ≡ before_of self.now w }
    {
        self.node(self.worker(w).own).prev
    }

    // One function for each field: a closure that changes it would be longer.
    #[tactic(auto, using(rows::proofs::Lending::with_past))]
    fn set_wait(&mut self, n: u8, wait: bool)
        ensures { self.new ≡ set_wait self.old n wait }
    {
        if let Some(node) = self.nodes.item(usize::from(n)) {
            node.wait = wait;
        }
    }

    #[tactic(auto, using(rows::proofs::Lending::with_past))]
    fn set_prev(&mut self, n: u8, prev: Option<u8>)
        ensures { self.new ≡ set_prev self.old n prev }
    {
        if let Some(node) = self.nodes.item(usize::from(n)) {
            node.prev = prev;
        }
    }
}

impl Algorithm for Words {
    ghost use Rattle.clh.specs.Accesses.{new_words, place, mark, come, leave, accessed};
    ghost use Rattle.clh.specs.Distance.{distance};
    ghost use Rattle.clh.specs.Facts.{Holds};

    const BOUND: u32 = 5;

    ghost BOUND = { 5 };

    ghost place_of = { place };

    ghost distance_of = { distance };

    ghost shows = { mark };

    ghost new = { new_words };

    ghost come = { come };

    ghost leave = { leave };

    ghost access = { accessed };

    ghost Holds = { Holds };

    fn place_of(&self, w: u8) -> Place {
        self.worker(w).label.place()
    }

    fn distance_of(&self, w: u8) -> Option<u32> {
        match self.worker(w).label {
            Label::X0(_) => Some(5),
            Label::W0 if !self.node(self.tail).wait => Some(4),
            Label::W1 if !self.node(self.tail).wait => Some(3),
            Label::W2(pred) if !self.node(pred).wait => Some(2),
            Label::W3(pred) if !self.node(pred).wait => Some(1),
            _ => None,
        }
    }

    fn shows(&self, w: u8) -> bool {
        self.before(w).is_some()
    }

    // Each worker owns the node of its number, and node 16 is spare.
    fn new() -> Words {
        Words {
            tail: 16,
            nodes: Rows::new([BLANK; 17]),
            workers: array::from_fn(|n| Worker::outside(n as u8)),
        }
    }

    fn come(&mut self, w: u8) {
        self.put(w, Label::W0);
    }

    fn leave(&mut self, w: u8) {
        let pred = self.before(w).unwrap_or(0);
        self.put(w, Label::X0(pred));
    }

    fn access(&mut self, w: u8) -> Result<Answer, Refusal> {
        let Worker { own, label } = self.worker(w);
        match label {
            Label::W0 => {
                self.set_wait(own, true);
                self.put(w, Label::W1);
                Ok(Answer::Done)
            }
            Label::W1 => {
                let pred = self.tail;
                self.tail = own;
                self.put(w, Label::W2(pred));
                Ok(Answer::Done)
            }
            Label::W2(pred) => {
                self.set_prev(own, Some(pred));
                self.put(w, Label::W3(pred));
                Ok(Answer::Done)
            }
            Label::W3(pred) if self.node(pred).wait => Ok(Answer::Done),
            Label::W3(_) => {
                self.put(w, Label::Inside);
                Ok(Answer::Entered)
            }
            Label::X0(pred) => {
                self.set_wait(own, false);
                self.put(w, Label::X1(pred));
                Ok(Answer::Done)
            }
            Label::X1(pred) => {
                self.set_prev(pred, None);
                put_item(&mut self.workers, w, Worker::outside(pred));
                Ok(Answer::Left)
            }
            Label::Out | Label::Inside => Err(Refusal::Idle),
        }
    }
}

impl Ruled for Words {
    fn keeps_rules() {}
}
