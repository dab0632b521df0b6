ghost use Rattle.std.specs.Prelude.{◌≡◌, ◌+◌, ◌<◌, ◌≤◌, [], ◌∷◌, ◌++◌, slice_set};
ghost use Rattle.list.specs.Held.{list_len, list_room, list_memory, list_items, lender, push_answer};

use crate::{List, Memory};

impl<'a, T: Drop> List<'a, T> {
    // An empty list over all of `items`.
    pub fn new(items: &'a mut [T]) -> Self
        ensures items { list_items result ≡ [] }
        ensures len { list_len result ≡ 0 }
        ensures memory { list_memory result ≡ items.old }
        ensures same { lender result ≡ items.entry.ghost_name }
    {
        List { items, len: 0 }
    }

    pub fn len(&self) -> usize
        ensures { result ≡ list_len self.now }
    {
        self.len
    }

    // How many it can hold.
    pub fn room(&self) -> usize
        ensures { result ≡ list_room self.now }
    {
        self.items.len()
    }

    // The items in the order of their pushes.
    pub fn as_slice(&self) -> &[T]
        ensures { result.now ≡ list_items self.now }
    {
        &self.items[..self.len]
    }

    // Empty again; the memory keeps what it holds.
    pub fn clear(&mut self)
        ensures items { list_items self.new ≡ [] }
        ensures len { list_len self.new ≡ 0 }
        ensures memory { list_memory self.new ≡ list_memory self.old }
        ensures same { lender self.new ≡ lender self.old }
    {
        self.len = 0;
    }

    // Refused where the list is full. By index, since after a write through `get_mut` nothing is
    // known of the other elements.
    pub fn push(&mut self, x: T) -> Result<(), Memory>
        ensures value { result ≡ push_answer self.old }
        ensures items { list_len self.old < list_room self.old → list_items self.new ≡ list_items self.old ++ x ∷ [] }
        ensures len { list_len self.old < list_room self.old → list_len self.new ≡ list_len self.old + 1 }
        ensures memory { list_len self.old < list_room self.old → list_memory self.new ≡ slice_set (list_memory self.old) (list_len self.old) x }
        ensures refused { list_room self.old ≤ list_len self.old → self.new ≡ self.old }
        ensures same { lender self.new ≡ lender self.old }
    {
        if self.len < self.room() {
            self.items[self.len] = x;
            self.len += 1;
            Ok(())
        } else {
            Err(Memory::TooShort)
        }
    }
}
