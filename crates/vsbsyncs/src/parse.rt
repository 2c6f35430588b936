// Reads the words of a line: bits, bytes in hexadecimal digits and levels.
use std::error::Error;
use std::fmt;
use std::num::ParseIntError;
use vectors::pair;

// Why a line is not read.
#[derive(Clone, Copy, PartialEq, Eq, Debug)]
pub(crate) enum BadWord {
    // A part is missing, or there is one more.
    Parts,
    // A part has another length than is needed.
    Length,
    // A sign stands where it has no meaning.
    Sign,
}

impl fmt::Display for BadWord {
    fn fmt<W: fmt::Write>(&self, f: &mut fmt::Formatter<W>) -> fmt::Result {
        f.write_str(match self {
            BadWord::Parts => "a line has another number of parts",
            BadWord::Length => "a part of a line has another length",
            BadWord::Sign => "a sign stands where it has no meaning",
        })
    }
}

impl Error for BadWord {}

impl From<ParseIntError> for BadWord {
    fn from(_e: ParseIntError) -> BadWord {
        BadWord::Sign
    }
}

// A bit, 0 or 1. By a match: `bool` is parsed from the words true and false.
pub(crate) fn bit(text: &str) -> Result<bool, BadWord> {
    match text {
        "0" => Ok(false),
        "1" => Ok(true),
        _ => Err(BadWord::Sign),
    }
}

// The 15 bytes of sync data, by two hexadecimal digits each.
pub(crate) fn sync_data(text: &str) -> Result<[u8; 15], BadWord> {
    let digits = <&[u8; 30]>::try_from(text.as_bytes()).map_err(|_| BadWord::Length)?;
    let (pairs, _) = digits.as_chunks::<2>();
    let pairs = <&[[u8; 2]; 15]>::try_from(pairs).map_err(|_| BadWord::Length)?;
    pairs.try_map(|[high, low]| pair(high, low).ok_or(BadWord::Sign))
}

// The level of a Z number from 0 to 7.
fn level(sign: u8) -> Result<i8, BadWord> {
    match sign {
        b'0'..=b'7' => Ok(2 * (sign - b'0') as i8 - 7),
        _ => Err(BadWord::Sign),
    }
}

// The 832 levels of a segment, by their Z numbers.
pub(crate) fn segment(text: &str) -> Result<[i8; 832], BadWord> {
    let signs = <&[u8; 832]>::try_from(text.as_bytes()).map_err(|_| BadWord::Length)?;
    // Not by `try_map`, with which the program takes two and a half times as long on field syncs.
    let mut levels = [0; 832];
    for (symbol, sign) in levels.iter_mut().zip(signs) {
        *symbol = level(*sign)?;
    }
    Ok(levels)
}

// A memory of 832 symbols that ends in the twelve of a list.
pub(crate) fn last_segment(text: &str) -> Result<[i8; 832], BadWord> {
    let mut last = [0; 832];
    let mut symbols = text.split(',');
    for symbol in last[820..].iter_mut() {
        *symbol = symbols.next().ok_or(BadWord::Length)?.parse()?;
    }
    match symbols.next() {
        None => Ok(last),
        Some(_) => Err(BadWord::Length),
    }
}
