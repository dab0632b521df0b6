ghost use Rattle.std.specs.Prelude.{◌≡◌, length};

// N values of one kind.
#[derive(Drop)]
pub struct Rows<T, const N: usize> {
    pub items: [T; N],
    ghost whole: { length items ≡ N },
}
