ghost use Rattle.std.specs.Prelude.{◌≡◌};
ghost use Rattle.mcs.specs.Distance.{unlinked as unlinked_of};
ghost use Rattle.mcs.specs.Accesses.{place_of as place_at, answer_of, label as label_of, node, set_next, set_locked, access as access_of};

use lock::{Algorithm, Answer, Place, Refusal, Ruled, item_or, put_item};
use rows::Rows;

// The access that a worker has before it; at W2 and W3 with the worker before it, at X3 with the one behind it.
#[derive(Clone, Copy)]
pub enum Label {
    Out,
    W0,
    W1,
    W2(u8),
    W3(u8),
    W4,
    W5,
    Inside,
    X0,
    X1,
    X2,
    X3(u8),
    X4,
}

impl Label {
    fn place(self) -> Place
        ensures { result ≡ place_at self }
    {
        match self {
            Label::Out => Place::Out,
            Label::W0 | Label::W1 | Label::W2(_) | Label::W3(_) | Label::W4 | Label::W5 =>
                Place::Waiting,
            Label::Inside => Place::Inside,
            Label::X0 | Label::X1 | Label::X2 | Label::X3(_) | Label::X4 => Place::Leaving,
        }
    }

    // What a step answers.
    fn answer(self) -> Result<Answer, Refusal>
        ensures { result ≡ answer_of self }
    {
        match self {
            Label::Out | Label::Inside => Err(Refusal::Idle),
            Label::W5 => Ok(Answer::Entered),
            Label::X4 => Ok(Answer::Left),
            _ => Ok(Answer::Done),
        }
    }

    // Whether the worker waits for the one behind it to write its `next`.
    fn unlinked(self) -> bool
        ensures { result ≡ unlinked_of self }
    {
        matches!(self, Label::X2)
    }
}

#[derive(Clone, Copy)]
pub struct Node {
    pub next: Option<u8>,
    pub locked: bool,
}

// The shared words, each worker's node among them, and beside them the labels, which are private.
#[derive(Drop)]
pub struct Words {
    pub last: Option<u8>,
    pub nodes: Rows<Node, 16>,
    pub at: [Label; 16],
}

const BLANK: Node = Node {
    next: None,
    locked: false,
};

impl Words {
    fn label(&self, w: u8) -> Label
        ensures { result ≡ label_of self.now w }
    {
        item_or(&self.at, w, Label::Out)
    }

    fn node(&self, w: u8) -> Node
        ensures { result ≡ node self.now w }
    {
        item_or(&self.nodes.items, w, BLANK)
    }

    // One function for each field: a closure that changes it would be longer.
    #[tactic(auto, using(rows::proofs::Lending::with_past))]
    fn set_next(&mut self, w: u8, next: Option<u8>)
        ensures { self.new ≡ set_next self.old w next }
    {
        if let Some(node) = self.nodes.item(usize::from(w)) {
            node.next = next;
        }
    }

    #[tactic(auto, using(rows::proofs::Lending::with_past))]
    fn set_locked(&mut self, w: u8, locked: bool)
        ensures { self.new ≡ set_locked self.old w locked }
    {
        if let Some(node) = self.nodes.item(usize::from(w)) {
            node.locked = locked;
        }
    }

    // The access at a label: what it writes, and the label after it.
    fn pass(&mut self, w: u8, label: Label) -> Label
        ensures { (self.new, result) ≡ access_of label self.old w }
    {
        match label {
            Label::W0 => {
                self.set_next(w, None);
                Label::W1
            }
            Label::W1 => self.last.replace(w).map_or(Label::W5, Label::W2),
            Label::W2(pred) => {
                self.set_locked(w, true);
                Label::W3(pred)
            }
            Label::W3(pred) => {
                self.set_next(pred, Some(w));
                Label::W4
            }
            Label::W4 if self.node(w).locked => Label::W4,
            Label::W4 => Label::W5,
            Label::W5 => {
                self.set_locked(w, true);
                Label::Inside
            }
            Label::X0 => self.node(w).next.map_or(Label::X1, Label::X3),
            Label::X1 if self.last == Some(w) => {
                self.last = None;
                Label::X4
            }
            Label::X1 => Label::X2,
            Label::X2 => self.node(w).next.map_or(Label::X2, Label::X3),
            Label::X3(succ) => {
                self.set_locked(succ, false);
                Label::X4
            }
            Label::X4 => {
                self.set_locked(w, false);
                Label::Out
            }
            Label::Out | Label::Inside => label,
        }
    }
}

impl Algorithm for Words {
    ghost use Rattle.mcs.specs.Accesses.{new_words, place, mark, come, leave, accessed};
    ghost use Rattle.mcs.specs.Distance.{distance};
    ghost use Rattle.mcs.specs.Facts.{Holds};

    const BOUND: u32 = 10;

    ghost BOUND = { 10 };

    ghost place_of = { place };

    ghost distance_of = { distance };

    ghost shows = { mark };

    ghost new = { new_words };

    ghost come = { come };

    ghost leave = { leave };

    ghost access = { accessed };

    ghost Holds = { Holds };

    fn place_of(&self, w: u8) -> Place {
        self.label(w).place()
    }

    fn distance_of(&self, w: u8) -> Option<u32> {
        let own = self.node(w);
        match self.label(w) {
            Label::W0 if self.last.is_none() => Some(3),
            Label::W1 if self.last.is_none() => Some(2),
            Label::W2(pred) if self.label(pred).unlinked() => Some(6),
            Label::W3(pred) if self.label(pred).unlinked() => Some(5),
            Label::W4 if !own.locked => Some(2),
            Label::W5 => Some(1),
            Label::X0 if own.next.is_some() => Some(4),
            Label::X0 => Some(8),
            Label::X1 if own.next.is_some() => Some(5),
            Label::X1 => Some(7),
            Label::X2 if own.next.is_some() => Some(4),
            Label::X3(_) => Some(3),
            _ => None,
        }
    }

    // The mark is the own `locked`.
    fn shows(&self, w: u8) -> bool {
        self.node(w).locked
    }

    fn new() -> Words {
        Words {
            last: None,
            nodes: Rows::new([BLANK; 16]),
            at: [Label::Out; 16],
        }
    }

    fn come(&mut self, w: u8) {
        put_item(&mut self.at, w, Label::W0);
    }

    fn leave(&mut self, w: u8) {
        put_item(&mut self.at, w, Label::X0);
    }

    fn access(&mut self, w: u8) -> Result<Answer, Refusal> {
        let label = self.label(w);
        let answer = label.answer()?;
        let next = self.pass(w, label);
        put_item(&mut self.at, w, next);
        Ok(answer)
    }
}

impl Ruled for Words {
    fn keeps_rules() {}
}
