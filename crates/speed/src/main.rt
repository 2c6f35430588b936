// Times the library's calls on pseudo-random rows, and prints the best of several turns to standard error.
#![tactic(auto)]

use delay::{Delay, Direction};
use mender::{Mending, mend};
use randomizer::{code_packet, combine};
use reed_solomon::{complete, is_code};
use refusal::Refusal;
use std::io;
use std::time::{Duration, Instant};
use trellis::{Marked, Reader, Trellis};

// Rows that are worked on, rounds over them in one turn, and turns of which the best counts.
const ROWS: usize = 64;

const ROUNDS: usize = 200;

const TURNS: usize = 9;

// Calls in one turn.
const CALLS: u128 = ROWS as u128 * ROUNDS as u128;

// Why a call is not timed.
#[derive(Debug, Drop)]
enum Failure {
    // The clock or the printing failed.
    Io(io::Error),
    // The call refused.
    Refused(Refusal),
    // A completed row is no code row.
    NoCodeRow,
    // The calls leave a row of zeros.
    BlankRow,
}

impl From<io::Error> for Failure {
    fn from(error: io::Error) -> Failure {
        Failure::Io(error)
    }
}

impl From<Refusal> for Failure {
    fn from(refusal: Refusal) -> Failure {
        Failure::Refused(refusal)
    }
}

// The next number of an xorshift sequence.
fn draw(state: u64) -> u64 {
    let a = state ^ state.wrapping_shl(13);
    let b = a ^ a.wrapping_shr(7);
    b ^ b.wrapping_shl(17)
}

// Fills a row with pseudo-random bytes.
fn fill(row: &mut [u8]) {
    let mut state = 88172645463325252;
    for byte in row {
        state = draw(state);
        *byte = (state & 0xff) as u8;
    }
}

// Rows of the code.
fn code_rows() -> Result<[[u8; 207]; ROWS], Refusal> {
    let mut row = [0; 207];
    fill(&mut row);
    complete(&mut row)?;
    Ok([row; ROWS])
}

// Alters so many bytes of a row; done twice the row is as before.
fn damage(row: &mut [u8; 207], wrong: u8) {
    for (byte, k) in row.iter_mut().step_by(6).zip(1..=wrong.min(32)) {
        *byte ^= k;
    }
}

// Mends a damaged row, and undoes the damage where it is spoiled.
fn mend_damaged(row: &mut [u8; 207], wrong: u8) -> Result<(), Failure> {
    damage(row, wrong);
    if mend(row)? == Mending::Spoiled {
        damage(row, wrong);
    }
    Ok(())
}

// What the calls work on beside a row.
#[derive(Drop)]
struct Bench {
    packet: [u8; 188],
    memory: Delay,
    cells: [u8; 5304],
    passing: [u8; 207],
    trellis: Trellis,
    quad: [u8; 828],
    symbols: [i8; 828],
    reader: Reader,
    read: [Marked; 828],
}

impl Bench {
    // A bench with a pseudo-random packet and quad.
    fn new() -> Result<Bench, Refusal> {
        let mut packet = [0; 188];
        fill(&mut packet);
        let mut quad = [0; 828];
        fill(&mut quad);
        Ok(Bench {
            packet,
            memory: Delay::new(52, 4, Direction::Interleave)?,
            cells: [0; 5304],
            passing: [0; 207],
            trellis: Trellis::new(),
            quad,
            symbols: [7; 828],
            reader: Reader::new(),
            read: [Marked::default(); 828],
        })
    }
}

// Works on every row with its number, so many rounds.
fn work_rounds<W: FnMut(&mut Bench, usize, &mut [u8; 207]) -> Result<(), Failure>>(
    work: &mut W,
    bench: &mut Bench,
    rows: &mut [[u8; 207]; ROWS],
) -> Result<(), Failure>
    requires { (state : W) (bench : _) (i : _) (row : _) → W.pre state bench i row }
{
    for _ in 0..ROUNDS {
        for (i, row) in rows.iter_mut().enumerate() {
            work(bench, i, row)?;
        }
    }
    // The rows are read, since calls that write what nothing reads are compiled away.
    if rows.iter().any(|row| row.iter().all(|byte| *byte == 0)) {
        return Err(Failure::BlankRow);
    }
    Ok(())
}

// The time of the calls of the best turn.
fn best<W: FnMut(&mut Bench, usize, &mut [u8; 207]) -> Result<(), Failure>>(
    rt: &HostRuntime,
    mut work: W,
) -> Result<Duration, Failure>
    requires { (state : W) (bench : _) (i : _) (row : _) → W.pre state bench i row }
{
    let mut bench = Bench::new()?;
    let mut rows = code_rows()?;
    let mut least = Duration::MAX;
    for _ in 0..TURNS {
        let start = Instant::now(rt)?;
        let done = work_rounds(&mut work, &mut bench, &mut rows);
        least = least.min(start.elapsed(rt)?);
        done?;
    }
    Ok(least)
}

// Times one call and prints it, or why it is not timed.
fn report<W: FnMut(&mut Bench, usize, &mut [u8; 207]) -> Result<(), Failure>>(
    rt: &HostRuntime,
    name: &str,
    work: W,
) -> io::Result<()>
    requires { (state : W) (bench : _) (i : _) (row : _) → W.pre state bench i row }
{
    match best(rt, work) {
        Ok(least) => {
            let all = least.as_nanos();
            let each = all / CALLS;
            let rate = CALLS * 1_000_000_000 / all.max(1);
            eprintln!(rt; "{name} {each} ns, {rate} a second")
        }
        Err(Failure::Io(error)) => Err(error),
        Err(why) => eprintln!(rt; "{name} is not timed: {why:?}"),
    }
}

// Times mending a row with so many wrong bytes, at most 32.
fn report_mending(rt: &HostRuntime, name: &str, wrong: u8) -> io::Result<()> {
    report(rt, name, |_, _, row| mend_damaged(row, wrong))
}

fn main(rt: HostRuntime) -> io::Result<()> {
    report(&rt, "complete", |_, _, row| Ok(complete(row)?))?;
    report(
        &rt,
        "is_code",
        |_, _, row| if is_code(row) {
            Ok(())
        } else {
            Err(Failure::NoCodeRow)
        },
    )?;
    report(
        &rt,
        "combine",
        |bench, i, row| Ok(combine(&bench.packet[1..188], i, &mut row[0..187])?),
    )?;
    report(
        &rt,
        "code_packet",
        |bench, i, row| Ok(code_packet(&bench.packet, i, row)?),
    )?;
    report(&rt, "interleave a row", |bench, _, _| {
        Ok(bench.memory.pass(&mut bench.cells, &mut bench.passing)?)
    })?;
    report_mending(&rt, "mend 0 wrong", 0)?;
    report_mending(&rt, "mend 1 wrong", 1)?;
    report_mending(&rt, "mend 5 wrong", 5)?;
    report_mending(&rt, "mend 10 wrong", 10)?;
    report_mending(&rt, "mend 11 wrong", 11)?;
    report(&rt, "write 828 symbols", |bench, i, _| {
        Ok(bench.trellis.write(&bench.quad, i, &mut bench.symbols)?)
    })?;
    report(&rt, "read 828 symbols", |bench, i, _| {
        Ok(bench.reader.read(&bench.symbols, i, &mut bench.read)?)
    })
}
