// Compares the field syncs of crate segments with those of files that another program made, and prints how many are equal.
#![tactic(auto)]

mod figures;
mod parse;

use anyhow::anyhow;
use figures::{report_agrees, sync_agrees};
use parse::BadWord;
use std::fs;
use vectors::compare;

fn main(rt: HostRuntime) -> anyhow::Result<()> {
    run(&rt)
}

// Compares both files and prints a line for each.
fn run(rt: &HostRuntime) -> anyhow::Result<()> {
    compare_file(
        rt,
        "fieldsync.txt",
        "field syncs",
        |_, line| sync_agrees(line),
    )?;
    compare_file(
        rt,
        "fieldreport.txt",
        "field reports",
        |_, line| report_agrees(line),
    )
}

// Compares a file and prints what its lines are, how many there are and how many of them agree.
// Not by `vectors::report`, which prints no count of all lines and no reason.
fn compare_file<F: FnMut(usize, &str) -> Result<bool, BadWord>>(
    rt: &HostRuntime,
    name: &str,
    what: &str,
    agrees: F,
) -> anyhow::Result<()>
    requires { F.IsAlwaysCallable agrees }
{
    let text = fs::read_to_string(rt, name).map_err(|why| anyhow!("{name}: {why}"))?;
    let tally = compare(text.as_str(), agrees).map_err(|bad| anyhow!("{name}: {bad}"))?;
    let all = tally.total();
    println!(rt; "{what} {all} {tally}")?;
    Ok(())
}
