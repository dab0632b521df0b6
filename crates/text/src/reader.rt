ghost use Rattle.std.specs.Prelude.{◌+◌, ◌≤◌, length};

// How long a text may be, in bytes.
pub const MOST_BYTES: usize = 32_768;

// What is still to be read of a text of at most `MOST_BYTES` bytes; `line` is the number of its first line.
#[derive(Clone, Copy, Debug, PartialEq, Eq)]
pub struct Reader<'a> {
    pub(crate) left: &'a [u8],
    pub(crate) line: u32,
    ghost started: { 1 ≤ line },
    ghost counted: { line + length left.now ≤ 32769 },
}
