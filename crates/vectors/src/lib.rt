// Recorded test vectors: bytes written as hexadecimal digits, and lines that are compared one by one.
#![tactic(auto)]

ghost use Rattle.std.specs.Prelude.{◌≡◌};
ghost use Rattle.vectors.specs.Hex.{digit_value, pair_value, Read};
ghost use Rattle.vectors.specs.declared.VectorError.TheVariants.{Malformed, NoMemory};

mod lines;
mod tally;

pub use lines::{BadLine, cannot_read, compare, report};
use std::alloc::{AllocError, AllocFailed, Global};
use std::error::Error;
use std::fmt;
use std::num::ParseIntError;
pub use tally::Tally;

// Why a word of a vector could not be read.
#[derive(Clone, Copy, PartialEq, Eq, Debug)]
pub enum VectorError {
    // It is no number, or no even number of the digits 0 to 9 and a to f.
    Malformed,
    // There was no memory for its bytes.
    NoMemory,
}

impl fmt::Display for VectorError {
    fn fmt<W: fmt::Write>(&self, f: &mut fmt::Formatter<W>) -> fmt::Result {
        f.write_str(match self {
            VectorError::Malformed => "malformed vector",
            VectorError::NoMemory => "no memory for a vector",
        })
    }
}

impl Error for VectorError {}

impl From<AllocError> for VectorError {
    ghost from_gives = { λ _ e. e ≡ NoMemory };

    fn from(_e: AllocError) -> VectorError {
        VectorError::NoMemory
    }
}

impl<T: Drop> From<AllocFailed<T>> for VectorError {
    ghost from_gives = { λ _ e. e ≡ NoMemory };

    fn from(_e: AllocFailed<T>) -> VectorError {
        VectorError::NoMemory
    }
}

impl From<ParseIntError> for VectorError {
    ghost from_gives = { λ _ e. e ≡ Malformed };

    fn from(_e: ParseIntError) -> VectorError {
        VectorError::Malformed
    }
}

// The value of a hexadecimal digit. By a match: the digits are lower case, and `char::to_digit` takes capitals too.
fn digit(c: u8) -> Option<u8>
    ensures { result ≡ digit_value c }
{
    match c {
        b'0'..=b'9' => Some(c - b'0'),
        b'a'..=b'f' => Some(c - b'a' + 10),
        _ => None,
    }
}

// The byte of two digits, the higher first.
pub fn pair(high: u8, low: u8) -> Option<u8>
    ensures { result ≡ pair_value high low }
{
    Some(16 * digit(high)? + digit(low)?)
}

// The bytes that the digits stand for, two digits to a byte.
pub fn bytes(alloc: Global, digits: &[u8]) -> Result<Vec<u8>, VectorError>
    ensures { Read digits.now result }
{
    let (pairs, []) = digits.as_chunks::<2>() else {
        return Err(VectorError::Malformed);
    };
    let mut out = Vec::new(alloc);
    for [high, low] in pairs {
        out.push(pair(*high, *low).ok_or(VectorError::Malformed)?)?;
    }
    Ok(out)
}

#[cfg(test)]
mod tests {
    use super::*;
    use std::test::Fail;

    #[test]
    fn digits_are_read_two_by_two(rt: HostRuntime) -> Result<(), Fail> {
        let read = bytes(rt.alloc(), b"47b8")?;
        assert_eq!(rt; read.as_slice(), [0x47, 0xb8].as_slice());
        Ok(())
    }

    #[test]
    fn an_odd_digit_is_malformed(rt: HostRuntime) {
        assert_eq!(rt;
            bytes(rt.alloc(), b"47b").err(),
            Some(VectorError::Malformed)
        );
    }
}
