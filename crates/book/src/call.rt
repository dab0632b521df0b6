// What a worker may ask of a book.
#[derive(Clone, Copy, Debug, PartialEq, Eq)]
pub enum Call {
    Lock,
    Unlock,
    Step,
    Look { chest: u32, grams: u32 },
    Enter,
}

// A call and the worker that makes it; any number of 8 bits may be passed as a worker's.
#[derive(Clone, Copy, Debug, PartialEq, Eq)]
pub struct Event {
    pub worker: u8,
    pub call: Call,
}
