ghost use Rattle.std.specs.Prelude.{MatchBool};
ghost use Rattle.text.specs.Decimal.{Plain, ReadsUpTo};

// Whether the bytes begin as a number without leading zeros does.
fn is_plain(value: &[u8]) -> bool
    ensures { MatchBool result (Plain value.now) (Plain value.now → ⊥) }
{
    matches!(value, [b'0'] | [b'1'..=b'9', ..])
}

// The number up to `max` that the bytes write, in decimal without leading zeros.
pub fn number_in(value: &[u8], max: u32) -> Option<u32>
    ensures { ReadsUpTo max value.now result }
{
    if !is_plain(value) {
        return None;
    }
    let text = std::str::from_utf8(value).ok()?;
    text.parse().ok().filter(|n| *n <= max)
}
