// Transcribes many texts, each ended by a percent sign and a newline, and ends each transcript so.
#![tactic(auto)]

use case_texts::Texts;
use runner::{MOST_TRANSCRIPT, transcribe};
use std::io::{Read, Write};

fn transcribed(rt: &HostRuntime, text: &[u8]) -> anyhow::Result<()> {
    let mut memory = [0u8; MOST_TRANSCRIPT];
    let size = transcribe(text, &mut memory)?;
    let mut out = rt.stdout();
    out.write_all(&memory[..size])?;
    out.write_all(b"%\n")?;
    Ok(())
}

fn main(rt: HostRuntime) -> anyhow::Result<()> {
    let mut input = Vec::new(rt.alloc());
    rt.stdin().read_to_end(&mut input)?;
    for text in Texts::new(&input) {
        transcribed(&rt, text)?;
    }
    Ok(())
}
