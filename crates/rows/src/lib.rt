// A table of N values of one kind, of which one is lent at a time and changed.
#![tactic(auto)]

mod table;

ghost use Rattle.std.specs.Prelude.{◌≡◌, is_some, IfSome, nat_lt, slice_index_or};
ghost use Rattle.std.specs.Borrow.{sem, LendsIf};
ghost use Rattle.rows.specs.contracts.table.Rows.{the_row};
ghost use Rattle.rows.specs.With.{with};

pub use table::Rows;

impl<T, const N: usize> Rows<T, N> {
    pub fn new(items: [T; N]) -> Self
        ensures { result.items ≡ items }
    {
        Rows { items }
    }

    // The value at `i`, lent: when the loan ends the table has the new value there, and is otherwise as it was.
    // By index, since `get_mut` is not proved on an array of a type parameter.
    pub fn item(&mut self, i: usize) -> Option<&mut T>
        ensures* follows { sem 𝓛 (LendsIf (the_row T.row N.row) T.row self.entry result (with self.old i) self.old) }
        ensures test { is_some result ≡ nat_lt i N }
        ensures value { IfSome result (λ x. (d : T) → x.now ≡ slice_index_or self.old.items i d) }
    {
        if i < N {
            Some(&mut self.items[i])
        } else {
            None
        }
    }
}
