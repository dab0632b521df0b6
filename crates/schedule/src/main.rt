// Reads a schedule from standard input and writes its transcript to standard output.
#![tactic(auto)]

use runner::{MOST_TRANSCRIPT, transcribe};
use std::io;
use std::io::{Read, Write};
use text::MOST_BYTES;

fn main(rt: HostRuntime) -> anyhow::Result<()> {
    // One byte more than a text may have: what comes after it changes nothing. An array, which no lack
    // of memory refuses.
    let mut text = [0u8; MOST_BYTES + 1];
    let most = text.len();
    let mut room = text.as_mut_slice();
    io::copy(&mut rt.stdin().take(most as u64), &mut room)?;
    let len = most.saturating_sub(room.len());
    let mut memory = [0u8; MOST_TRANSCRIPT];
    let size = transcribe(&text[..len], &mut memory)?;
    rt.stdout().write_all(&memory[..size])?;
    Ok(())
}
