// A line of the recorded rows: length, result, wrong bytes, received row and code row, with a space between.
use anyhow::{anyhow, bail, ensure};
use mender::{Mending, mend};
use std::alloc::{AllocError, Global};
use std::array;
use vectors::{VectorError, bytes};

// What mending has to answer, the received row, and the row afterwards.
#[derive(Drop)]
pub(crate) struct Recorded {
    mending: Mending,
    received: Vec<u8>,
    after: Vec<u8>,
}

impl Recorded {
    // Reads a line; where the code row is a dash, the received row has to stay.
    pub(crate) fn read(alloc: Global, line: &str) -> anyhow::Result<Recorded> {
        let mut words = line.split(' ');
        let [
            Some(length),
            Some(outcome),
            Some(wrong),
            Some(row),
            Some(code),
            None,
        ]: [_; 6] = array::from_fn(|_| words.next())
        else {
            bail!("a line has not five parts");
        };
        let received = row_bytes(alloc, row)?;
        ensure!(
            length.parse::<usize>()? == received.len(),
            "a row has another length"
        );
        let after = row_bytes(alloc, if code == "-" { row } else { code })?;
        Ok(Recorded {
            mending: mending(outcome, wrong)?,
            received,
            after,
        })
    }

    // Whether the row is mended as recorded: result, number of wrong bytes and every byte.
    pub(crate) fn agrees(self) -> bool {
        let Recorded {
            mending,
            received,
            after,
        } = self;
        let mut row = received;
        mend(row.as_mut_slice()) == Ok(mending) && row == after
    }
}

// The bytes of a row.
fn row_bytes(alloc: Global, digits: &str) -> anyhow::Result<Vec<u8>> {
    ensure!(digits.len() % 2 == 0, "a row has an odd number of digits");
    bytes(alloc, digits.as_bytes()).map_err(|why| match why {
        VectorError::Malformed => anyhow!("a row has something else than hexadecimal digits"),
        VectorError::NoMemory => anyhow::Error::from(AllocError),
    })
}

// The answer that a result and a number of wrong bytes stand for.
fn mending(outcome: &str, wrong: &str) -> anyhow::Result<Mending> {
    let wrong = wrong.parse::<u8>()?;
    match (outcome, wrong) {
        ("clean", 0) => Ok(Mending::Clean),
        ("mended", _) => Ok(Mending::Mended { wrong }),
        ("spoiled", 0) => Ok(Mending::Spoiled),
        _ => Err(anyhow!("no such result")),
    }
}
