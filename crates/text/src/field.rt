ghost use Rattle.std.specs.Prelude.{◌≡◌, ◌≤◌, decimal, MatchResult, OnErr};
ghost use Rattle.text.specs.Ahead.{Taken, ahead, line_number};
ghost use Rattle.text.specs.Wrong.{Any, UpTo, Wrong};

use crate::{Fault, Reader, Token, number_in};

impl<'a> Reader<'a> {
    // The value of the next line, which has this key.
    pub fn value(&mut self, key: &[u8]) -> Result<&'a [u8], Fault>
        ensures value { MatchResult result (λ v. Taken key.now v.now self.old self.new) (λ f. Wrong key.now Any (ahead self.old) (line_number self.old) f) }
        ensures refused { OnErr result (self.new ≡ self.old) }
    {
        let expected = key;
        let mut next = *self;
        let Token::Line { key, value, line } = next.token() else {
            return Err(Fault::Ended { line: self.line });
        };
        if key != expected {
            return Err(Fault::Key { line });
        }
        *self = next;
        Ok(value)
    }

    // The number up to `max` on the next line, which has this key.
    pub fn number(&mut self, key: &[u8], max: u32) -> Result<u32, Fault>
        ensures value { MatchResult result (λ n. (n ≤ max) × Taken key.now (decimal n) self.old self.new) (λ f. Wrong key.now (UpTo max) (ahead self.old) (line_number self.old) f) }
        ensures refused { OnErr result (self.new ≡ self.old) }
    {
        let mut next = *self;
        let value = next.value(key)?;
        let n = number_in(value, max).ok_or(Fault::Value { line: self.line })?;
        *self = next;
        Ok(n)
    }
}
