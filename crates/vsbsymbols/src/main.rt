// Compares the encoders, the reader and the numbering of data symbols with recorded values, and prints how many are equal.
#![tactic(auto)]

mod agree;

use agree::{encoder_agrees, numbering_agrees, reader_agrees};
use vectors::report;

fn run(rt: &HostRuntime) -> anyhow::Result<()> {
    let alloc = rt.alloc();
    report(rt, "encoder.txt", |_, line| encoder_agrees(alloc, line))?;
    report(rt, "reader.txt", |_, line| reader_agrees(alloc, line))?;
    report(rt, "symbols.txt", |_, line| numbering_agrees(line))
}

fn main(rt: HostRuntime) -> anyhow::Result<()> {
    run(&rt)
}
