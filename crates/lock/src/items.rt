// Items by worker, for any number of 8 bits.
ghost use Rattle.std.specs.Prelude.{◌≡◌, slice_index_or, slice_set};

// The item of the worker w, or `other` where it has none.
pub fn item_or<T: Copy>(items: &[T], w: u8, other: T) -> T
    ensures { result ≡ slice_index_or items.now w other }
{
    items.get(usize::from(w)).copied().unwrap_or(other)
}

// Writes the item of the worker w, where it has one. By index, since after a write through `get_mut` nothing is known
// of the other items.
pub fn put_item<T: Copy>(items: &mut [T], w: u8, item: T)
    ensures { items.new ≡ slice_set items.old w item }
{
    let i = usize::from(w);
    if i < items.len() {
        items[i] = item;
    }
}
