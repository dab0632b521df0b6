// A newcomer that is honest: a lock, and a book, that hand each call on to another and promise just what the
// rules ask. Each edit of this crate turns one of them into a cheat, which the rules alone refuse.
#![tactic(auto)]

mod book_proxy;
mod cheats;
mod lock_proxy;

pub use book_proxy::BookProxy;
pub use cheats::cheats_shut_out;
pub use lock_proxy::LockProxy;
