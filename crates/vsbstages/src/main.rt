// Compares completed rows, coded packets and the randomizer with recorded values, and prints how many are equal.
#![tactic(auto)]

mod agree;

use agree::{key_agrees, parity_agrees, row_agrees};
use vectors::report;

fn run(rt: &HostRuntime) -> anyhow::Result<()> {
    let alloc = rt.alloc();
    report(rt, "parity.txt", |_, line| parity_agrees(alloc, line))?;
    report(rt, "rows.txt", |_, line| row_agrees(alloc, line))?;
    report(rt, "randomizer.txt", |_, line| key_agrees(alloc, line))
}

fn main(rt: HostRuntime) -> anyhow::Result<()> {
    run(&rt)
}
