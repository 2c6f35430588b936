// Lines of recorded values, compared one by one with what the library makes of them.
ghost use Rattle.std.specs.Prelude.{◌≡◌, IfOk, IfErr, length};
ghost use Rattle.std.specs.Str.Lines.{lines};
ghost use Rattle.vectors.specs.Lines.{is_heading, compared, ComparesFirst, StopsAt};
ghost use Rattle.vectors.specs.Tally.{counts_of, total_of};

use crate::Tally;
use anyhow::anyhow;
use std::error::Error;
use std::fmt::{Debug, Display};
use std::rt::Files;
use std::{fmt, fs, io};

// The first line that could not be compared, counted from 1, and why.
#[derive(Clone, Copy, PartialEq, Eq, Debug, Drop)]
pub struct BadLine<E> {
    pub line: usize,
    pub why: E,
}

impl<E: Display> Display for BadLine<E> {
    fn fmt<W: fmt::Write>(&self, f: &mut fmt::Formatter<W>) -> fmt::Result {
        let line = self.line;
        let why = &self.why;
        write!(f, "line {line}: {why}")
    }
}

impl<E: Debug + Display + Drop> Error for BadLine<E> {}

// Whether a line is a heading, which begins with #.
fn is_heading(line: &str) -> bool
    ensures { result ≡ is_heading line.now }
{
    line.starts_with('#')
}

// Compares the lines of a text, headings apart; `agrees` is given a line's number, from 1, and the line.
pub fn compare<E, F: FnMut(usize, &str) -> Result<bool, E>>(
    text: &str,
    mut agrees: F,
) -> Result<Tally, BadLine<E>>
    requires { F.IsAlwaysCallable agrees }
    ensures ok { IfOk result (λ tally. (last : F) × ComparesFirst F.FnMut agrees text.now (length (lines text.now)) (last, counts_of tally)) }
    ensures every { IfOk result (λ tally. total_of tally ≡ compared text.now) }
    ensures err { IfErr result (λ bad. StopsAt F.FnMut agrees text.now bad.line bad.why) }
{
    let mut tally = Tally::new();
    for (n, line) in text.lines().enumerate() {
        if !is_heading(line) {
            let number = n + 1;
            let equal = agrees(number, line).map_err(|why| BadLine { line: number, why })?;
            tally = tally.counted(equal);
        }
    }
    Ok(tally)
}

// The error that tells which file could not be read, and why.
pub fn cannot_read(name: &str, why: io::Error) -> anyhow::Error {
    anyhow!("cannot read {name}: {why}")
}

// Compares the lines of a file, and prints its name and how many of them agree.
pub fn report<R: Files + Alloc + Print, E: Drop, F: FnMut(usize, &str) -> Result<bool, E>>(
    rt: &R,
    name: &str,
    agrees: F,
) -> anyhow::Result<()>
    requires { F.IsAlwaysCallable agrees }
{
    let text = fs::read_to_string(rt, name).map_err(|why| cannot_read(name, why))?;
    let tally = compare(text.as_str(), agrees).map_err(|BadLine { line, .. }| anyhow!(
        "{name}: line {line} is malformed"
    ))?;
    println!(rt; "{name} {tally}")?;
    Ok(())
}

#[cfg(test)]
mod tests {
    use super::*;
    use crate::VectorError;

    // Whether a line is the digit 1; another digit than 0 is malformed.
    fn is_one(line: &str) -> Result<bool, VectorError> {
        match line {
            "0" => Ok(false),
            "1" => Ok(true),
            _ => Err(VectorError::Malformed),
        }
    }

    #[test]
    fn headings_are_not_counted(rt: HostRuntime) {
        assert_eq!(rt;
            compare("# zeros and ones\n1\n0\n1\n", |_, line| is_one(line)),
            Ok(Tally {
                equal: 2,
                different: 1
            })
        );
    }

    #[test]
    fn the_first_bad_line_is_named(rt: HostRuntime) {
        assert_eq!(rt;
            compare("# zeros and ones\n1\n2\n3\n", |_, line| is_one(line)),
            Err(BadLine {
                line: 3,
                why: VectorError::Malformed
            })
        );
    }

    #[test]
    fn a_file_is_read_and_reported(rt: HostRuntime) {
        assert_eq!(rt;
            report(&rt, "/dev/null", |_, line| is_one(line)).is_ok(),
            true
        );
    }
}
