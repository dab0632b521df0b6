// Transcribes many texts, each ended by a percent sign and a newline. After each transcript stands a line of a percent
// sign and the number of the refusal that the same text gets from memory one byte too short.
#![tactic(auto)]

use anyhow::Context;
use case_texts::Texts;
use list::Memory;
use runner::{MOST_TRANSCRIPT, transcribe};
use std::io::{Read, Write};

// The refusal of a transcript of `size` bytes where there is room for one byte less.
fn one_byte_short(text: &[u8], size: usize) -> Option<Memory> {
    let mut memory = [0u8; MOST_TRANSCRIPT];
    let short = memory.get_mut(..size.saturating_sub(1))?;
    transcribe(text, short).err()
}

fn transcribed(rt: &HostRuntime, text: &[u8]) -> anyhow::Result<()> {
    let mut memory = [0u8; MOST_TRANSCRIPT];
    let size = transcribe(text, &mut memory)?;
    rt.stdout().write_all(&memory[..size])?;
    let refusal = one_byte_short(text, size).context("a byte less is enough")?;
    println!(rt; "%{}", refusal.number())?;
    Ok(())
}

fn main(rt: HostRuntime) -> anyhow::Result<()> {
    let mut input = Vec::new(rt.alloc());
    rt.stdin().read_to_end(&mut input)?;
    for text in Texts::new(&input) {
        transcribed(&rt, text)?;
    }
    Ok(())
}
