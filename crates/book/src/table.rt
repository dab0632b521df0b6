// The plain table of a book: its records, their weight and the slips.
ghost use Rattle.std.specs.Prelude.{◌≡◌, ◌<◌, ◌≤◌, Some};
ghost use Rattle.lock.specs.declared.place.Place.TheVariants.{Inside};
ghost use Rattle.book.specs.Stock.{new_table, records_of, holds, slip_at, with_slip, slip_now, found_answer, entered, Safe};

use lock::{Answer, Refusal, item_or, put_item};

// A chest in stock.
#[derive(Clone, Copy, Debug, PartialEq, Eq)]
pub struct Record {
    pub chest: u32,
    pub grams: u32,
}

// What a worker noted at its look: the chest and its grams, whether the chest was in the book, and the book's weight.
#[derive(Clone, Copy, Debug, PartialEq, Eq)]
pub struct Slip {
    pub chest: u32,
    pub grams: u32,
    pub found: bool,
    pub weight: u32,
}

// Plain fields, and no memory of its own making, since there is no heap.
#[derive(Drop)]
pub struct Table {
    pub records: [Record; 256],
    // how many of the records are filled
    pub len: usize,
    pub weight: u32,
    // each worker's slip
    pub slips: [Option<Slip>; 16],
}

impl Table {
    pub(crate) fn new() -> Table
        ensures { result ≡ new_table }
    {
        Table {
            records: [Record { chest: 0, grams: 0 }; 256],
            len: 0,
            weight: 0,
            slips: [None; 16],
        }
    }

    pub(crate) fn filled(&self) -> &[Record]
        requires { self.now.len ≤ 256 }
        ensures { result.now ≡ records_of self.now }
    {
        &self.records[..self.len]
    }

    // Whether one of the records is of the chest.
    fn has(&self, chest: u32) -> bool
        ensures { result ≡ holds (records_of self.now) chest }
    {
        let all = self.records.as_slice();
        all[..self.len.min(all.len())]
            .iter()
            .any(|record| record.chest == chest)
    }

    // The worker's slip, if it has one.
    fn slip(&self, w: u8) -> Option<Slip>
        ensures { result ≡ slip_at self.now w }
    {
        item_or(&self.slips, w, None)
    }

    pub(crate) fn put(&mut self, w: u8, slip: Option<Slip>)
        ensures { self.new ≡ with_slip self.old w slip }
    {
        put_item(&mut self.slips, w, slip);
    }

    // Writes the worker's slip anew.
    pub(crate) fn look(&mut self, w: u8, chest: u32, grams: u32) -> Answer
        ensures value { result ≡ found_answer (holds (records_of self.old) chest) }
        ensures after { self.new ≡ with_slip self.old w (Some (slip_now self.old chest grams)) }
    {
        let found = self.has(chest);
        let slip = Slip {
            chest,
            grams,
            found,
            weight: self.weight,
        };
        self.put(w, Some(slip));
        if found { Answer::Found } else { Answer::Done }
    }

    // Appends what the slip of a worker inside says.
    pub(crate) fn enter(&mut self, w: u8) -> Result<Answer, Refusal>
        requires { Safe self.old }
        ensures { w < 16 → (self.new, result) ≡ entered Inside w self.old }
    {
        let slip = self.slip(w).ok_or(Refusal::NoSlip)?;
        if slip.found {
            return Err(Refusal::Known);
        }
        if self.len >= 256 {
            return Err(Refusal::BookFull);
        }
        self.records[self.len] = Record {
            chest: slip.chest,
            grams: slip.grams,
        };
        self.len += 1;
        self.weight = slip.weight + slip.grams;
        self.put(w, None);
        Ok(Answer::Done)
    }
}
