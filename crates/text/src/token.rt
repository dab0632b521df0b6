ghost use Rattle.std.specs.Prelude.{◌≡◌, [], take, position, MatchBool, ◌≢◌, ◌==◌};
ghost use Rattle.text.specs.Cuts.{before, after};
ghost use Rattle.text.specs.Ahead.{Handed, Opened, ahead, line_number};

use crate::{MOST_BYTES, Reader};

// A line of the text as its key and its value, both parts of the text; a line that the text's end
// cuts; or that end. `line` is its number. Three ways, so no `Option` and no `Result`.
#[derive(Clone, Copy, Debug, PartialEq, Eq)]
pub enum Token<'a> {
    Line {
        key: &'a [u8],
        value: &'a [u8],
        line: u32,
    },
    Cut {
        line: u32,
    },
    End {
        line: u32,
    },
}

// Where the first `b` stands.
pub fn find(bytes: &[u8], b: u8) -> Option<usize>
    ensures { result ≡ position (λ x. x == b) bytes.now }
{
    bytes.iter().position(|x| *x == b)
}

// The key ends before the first `=`; without one the whole line is the key.
fn split<'a>(row: &'a [u8]) -> (&'a [u8], &'a [u8])
    ensures key { result.0.now ≡ before 61 row.now }
    ensures value { result.1.now ≡ after 61 row.now }
{
    let Some(sign) = find(row, b'=') else {
        return (row, &[]);
    };
    (&row[..sign], &row[sign + 1..])
}

impl<'a> Reader<'a> {
    // A reader of at most `MOST_BYTES` bytes of the text.
    pub fn new(text: &'a [u8]) -> Reader<'a>
        ensures { Opened (take 32768 text.now) result }
    {
        Reader {
            left: &text[..MOST_BYTES.min(text.len())],
            line: 1,
        }
    }

    // The number of the next line.
    pub fn line(&self) -> u32
        ensures { result ≡ line_number self.now }
    {
        self.line
    }

    // Whether the text is read to its end.
    #[tactic(auto, using(crate::proofs::First::done_lines))]
    pub fn is_done(&self) -> bool
        ensures { MatchBool result (ahead self.now ≡ []) (ahead self.now ≢ []) }
    {
        self.left.is_empty()
    }

    // The next line, or how the text ends.
    pub fn token(&mut self) -> Token<'a>
        ensures { Handed self.old result self.new }
    {
        let line = self.line;
        if self.is_done() {
            return Token::End { line };
        }
        let Some(end) = find(self.left, b'\n') else {
            return Token::Cut { line };
        };
        let (key, value) = split(&self.left[..end]);
        self.left = &self.left[end + 1..];
        self.line += 1;
        Token::Line { key, value, line }
    }
}
