// Many texts in one file, each ended by a percent sign and a newline.
#![tactic(auto)]

ghost use Rattle.std.specs.Prelude.{◌≡◌, length};
ghost use Rattle.std.specs.Iterator.{at_most};
ghost use Rattle.case_texts.specs.Texts.{NextText, text_start};

use text::find;

// The texts of which the end was found; what comes after the last end is no text.
#[derive(Drop)]
pub struct Texts<'a> {
    left: &'a [u8],
}

impl<'a> Texts<'a> {
    pub fn new(all: &'a [u8]) -> Texts<'a>
        ensures { result.left.now ≡ all.now }
    {
        Texts { left: all }
    }
}

// What is left after a sign, from where the next text starts.
fn next_start(rest: &[u8]) -> &[u8]
    ensures { result.now ≡ text_start rest.now }
{
    match rest {
        [] | [b'%', ..] => rest,
        [_, text @ ..] => text,
    }
}

impl<'a> Iterator for Texts<'a> {
    type Item = &'a [u8];

    ghost next_gives = { λ s r t. NextText s.left.now r t.left.now };

    ghost remaining = { λ s. at_most (length s.left.now) };

    fn next(&mut self) -> Option<&'a [u8]> {
        let end = find(self.left, b'%')?;
        let text = &self.left[..end];
        self.left = next_start(&self.left[end + 1..]);
        Some(text)
    }
}
