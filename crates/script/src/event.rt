ghost use Rattle.std.specs.Prelude.{◌≡◌, ℕ, ◌+◌, ◌<◌, [], ◌∷◌, ◌++◌, length, MatchOption, OnOk, ◌≢◌};
ghost use Rattle.text.specs.Ahead.{ahead};
ghost use Rattle.script.specs.Names.{call_name, Bare};
ghost use Rattle.script.specs.Stages.{Events, at_worker, at_call, at_chest, with_call};
ghost use Rattle.script.specs.Verdicts.{Reaches};

use crate::Kind;
use book::{Call, Event};
use text::{Fault, Reader};

// The call of this name that has no line of its own after it. `Call` is another crate's, so this is
// no method of it.
fn bare_call(name: &[u8]) -> Option<Call>
    ensures { MatchOption result ((c : Call) → Bare c → name.now ≢ call_name c) (λ c. Bare c × (name.now ≡ call_name c)) }
{
    match name {
        b"lock" => Some(Call::Lock),
        b"unlock" => Some(Call::Unlock),
        b"step" => Some(Call::Step),
        b"enter" => Some(Call::Enter),
        _ => None,
    }
}

fn read_look(reader: &mut Reader) -> Result<Call, Fault>
    ensures { (most : ℕ) (k : Kind) (es : Events) (w : ℕ) → Reaches most (at_chest k es w) (λ c. at_worker k (with_call es w c)) result reader.old reader.new }
{
    let chest = reader.number(b"chest", u32::MAX)?;
    let grams = reader.number(b"grams", u32::MAX)?;
    Ok(Call::Look { chest, grams })
}

fn read_call(reader: &mut Reader) -> Result<Call, Fault>
    ensures { (most : ℕ) (k : Kind) (es : Events) (w : ℕ) → Reaches most (at_call k es w) (λ c. at_worker k (with_call es w c)) result reader.old reader.new }
{
    let line = reader.line();
    let name = reader.value(b"call")?;
    if name == b"look".as_slice() {
        return read_look(reader);
    }
    bare_call(name).ok_or(Fault::Value { line })
}

// The worker of the next event, of which there may be `room` more.
fn read_worker(reader: &mut Reader, room: usize) -> Result<u8, Fault>
    ensures room { OnOk result (0 < room) }
    ensures value { (most : ℕ) (k : Kind) (es : Events) → length es + room ≡ most → (ahead reader.old ≢ []) → Reaches most (at_worker k es) (λ w. at_call k es w) result reader.old reader.new }
{
    let line = reader.line();
    let worker = reader.number(b"worker", 255)?;
    if room == 0 {
        return Err(Fault::TooMany { line });
    }
    Ok(worker as u8)
}

// The next event, of which there may be `room` more.
pub fn read_event(reader: &mut Reader, room: usize) -> Result<Event, Fault>
    ensures room { OnOk result (0 < room) }
    ensures value { (most : ℕ) (k : Kind) (es : Events) → length es + room ≡ most → (ahead reader.old ≢ []) → Reaches most (at_worker k es) (λ e. at_worker k (es ++ e ∷ [])) result reader.old reader.new }
{
    let worker = read_worker(reader, room)?;
    let call = read_call(reader)?;
    Ok(Event { worker, call })
}
