// Mends recorded rows and compares what comes of them with what was recorded.
#![tactic(auto)]

mod recorded;

use anyhow::anyhow;
use recorded::Recorded;
use std::{fs, io};
use vectors::{BadLine, compare};

// Why not all lines are compared.
#[derive(Drop)]
enum Stop {
    // A line can't be read.
    Unread(anyhow::Error),
    // That a line differs can't be printed.
    Unprinted(io::Error),
}

// Prints the number of each line of mend.txt that differs as it is found, and then how many rows agree.
fn run(rt: &HostRuntime) -> anyhow::Result<()> {
    let text = fs::read_to_string(rt, "mend.txt")?;
    let tally = compare(text.as_str(), |number, line| {
        let agrees = Recorded::read(rt.alloc(), line)
            .map_err(Stop::Unread)?
            .agrees();
        if !agrees {
            println!(rt; "line {number} differs").map_err(Stop::Unprinted)?;
        }
        Ok(agrees)
    })
    .map_err(|BadLine { line, why }| match why {
        Stop::Unread(why) => anyhow!("line {line}: {why}"),
        Stop::Unprinted(why) => anyhow::Error::from(why),
    })?;
    let rows = tally.total();
    let agree = tally.equal;
    let differ = tally.different;
    println!(rt; "rows {rows} agree {agree} differ {differ}")?;
    Ok(())
}

fn main(rt: HostRuntime) -> anyhow::Result<()> {
    run(&rt)
}
