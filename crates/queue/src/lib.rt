// What the queue locks share: how far a worker has come on its way through the queue, and, in specs/
// and proofs/, the line of the workers that have joined and its order.
#![tactic(auto)]

mod stage;

pub use stage::Stage;
