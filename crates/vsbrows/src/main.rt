// Codes a recorded stream of packets, interleaves its rows, and compares both with recorded ones.
#![tactic(auto)]

mod compare;
mod interleaving;

use anyhow::anyhow;
use compare::{Comparison, compare};
use delay::Direction;
use interleaving::BOTH_WAYS;
use std::fs;
use vectors::{Tally, cannot_read};

// The bytes of a file of the folder that the program is run in.
fn load(rt: &HostRuntime, name: &str) -> anyhow::Result<Vec<u8>> {
    fs::read(rt, name).map_err(|why| cannot_read(name, why))
}

// Prints what the comparison found: a line for a short end of a file, and the counts.
fn show_rows(rt: &HostRuntime, found: Comparison) -> anyhow::Result<()> {
    let Comparison {
        packets,
        rows,
        tally,
        short_packet,
        short_row,
    } = found;
    if short_packet > 0 {
        println!(rt; "short packet {short_packet}")?;
    }
    if short_row > 0 {
        println!(rt; "short row {short_row}")?;
    }
    println!(rt; "packets {packets} rows {rows} {tally}")?;
    Ok(())
}

// Prints how many bytes were compared under a name, and how many are equal.
fn show_bytes(rt: &HostRuntime, name: &str, tally: Tally) -> anyhow::Result<()> {
    let compared = tally.total();
    println!(rt; "{name} {compared} {tally}")?;
    Ok(())
}

// Interleaves the rows and compares; then undoes the recorded interleaving and compares with the rows.
fn interleave(rt: &HostRuntime, rows: &[u8], recorded: &mut [u8]) -> anyhow::Result<()> {
    let mut made = rows.to_vec(rt.alloc())?;
    interleaving::pass(&mut made, Direction::Interleave).map_err(|_| anyhow!(
        "the interleaver refuses"
    ))?;
    show_bytes(rt, "interleaved", interleaving::compare(&made, recorded))?;
    interleaving::pass(recorded, Direction::Deinterleave).map_err(|_| anyhow!(
        "the deinterleaver refuses"
    ))?;
    let back = recorded.get(BOTH_WAYS..).unwrap_or(&[]);
    show_bytes(rt, "deinterleaved", interleaving::compare(back, rows))
}

fn run(rt: &HostRuntime) -> anyhow::Result<()> {
    let packets = load(rt, "packets.ts")?;
    let rows = load(rt, "rows.bin")?;
    let mut interleaved = load(rt, "interleaved.bin")?;
    show_rows(rt, compare(&packets, &rows))?;
    interleave(rt, &rows, &mut interleaved)
}

fn main(rt: HostRuntime) -> anyhow::Result<()> {
    run(&rt)
}
