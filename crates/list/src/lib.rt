// One list over the host's memory, for every kind of element.
#![tactic(auto)]

ghost use Rattle.std.specs.Prelude.{◌≤◌, length};

mod calls;
mod memory;

pub use memory::Memory;

// The first `len` of the items lent by the host.
#[derive(Drop)]
pub struct List<'a, T> {
    items: &'a mut [T],
    len: usize,
    ghost within: { len ≤ length items.now },
}
