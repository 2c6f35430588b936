// Whether a recorded line agrees with what the library makes of it.
ghost use Rattle.std.specs.Prelude.{◌<◌, ◌^◌};

use refusal::Refusal;
use std::alloc::Global;
use std::array;
use std::num::ParseIntError;
use std::str::{FromStr, Split};
use trellis::{Encoder, Marked, Reader, Trellis};
use vectors::{VectorError, bytes};

// The next number of a list or of a line.
fn next<T: FromStr<Err = ParseIntError>>(numbers: &mut Split<'_, char>) -> Result<T, VectorError> {
    Ok(numbers.next().ok_or(VectorError::Malformed)?.parse()?)
}

// Whether a new encoder sends the recorded levels for the bytes: bytes given to it, and the levels it sends.
pub(crate) fn encoder_agrees(alloc: Global, line: &str) -> Result<bool, VectorError> {
    let mut words = line.split(' ');
    let [Some(data), Some(levels), None]: [_; 3] = array::from_fn(|_| words.next()) else {
        return Err(VectorError::Malformed);
    };
    let data = bytes(alloc, data.as_bytes())?;
    let mut levels = levels.split(',');
    let mut encoder = Encoder::new();
    for byte in &data {
        for pair in [*byte / 64, *byte / 16 % 4, *byte / 4 % 4, *byte % 4] {
            if encoder.step(pair >= 2, pair % 2 == 1) != next(&mut levels)? {
                return Ok(false);
            }
        }
    }
    Ok(true)
}

// Lays the levels of encoder 0 down where they stand in the four segments of the first quad; other symbols are −7.
fn laid(text: &str) -> Result<[[i8; 828]; 4], VectorError> {
    let mut segments = [[-7i8; 828]; 4];
    for (q, level) in text.split(',').enumerate() {
        let segment = segments.get_mut(q / 69).ok_or(VectorError::Malformed)?;
        segment[12 * (q % 69) + 8 * (q / 69) % 12] = level.parse()?;
    }
    Ok(segments)
}

// What is read of the four segments of the first quad.
fn read_quad(segments: &[[i8; 828]; 4]) -> Result<[Marked; 828], Refusal> {
    let mut reader = Reader::new();
    let mut quad = [Marked::default(); 828];
    for (s, segment) in segments.iter().enumerate() {
        reader.read(segment, s, &mut quad)?;
    }
    Ok(quad)
}

// Whether encoder 0's levels are read as the recorded bytes with the recorded marks: levels from the start on, the bytes read, their marks, and more that is not compared.
pub(crate) fn reader_agrees(alloc: Global, line: &str) -> Result<bool, VectorError> {
    let mut words = line.split(' ');
    let [Some(levels), Some(read), Some(marks)]: [_; 3] = array::from_fn(|_| words.next()) else {
        return Err(VectorError::Malformed);
    };
    let segments = laid(levels)?;
    let read = bytes(alloc, read.as_bytes())?;
    let Ok(quad) = read_quad(&segments) else {
        return Ok(false);
    };
    for (m, (byte, mark)) in read.iter().zip(marks.bytes()).enumerate() {
        if m >= 69 {
            return Err(VectorError::Malformed);
        }
        let told = quad[12 * m + 8 * (4 * m / 69) % 12];
        if told.byte != *byte || told.marked != (mark == b'1') {
            return Ok(false);
        }
    }
    Ok(true)
}

// The first data symbol of a quad that is not −7 where new encoders send these bytes.
fn first_sent(quad: &[u8], number: usize) -> Option<usize>
    requires { number < 2 ^ 62 }
{
    let mut trellis = Trellis::new();
    for s in 0..4 {
        let mut out = [-7i8; 828];
        trellis.write(quad, 4 * number + s, &mut out).ok()?;
        if let Some(place) = out.iter().position(|symbol| *symbol != -7) {
            return Some(828 * s + place);
        }
    }
    None
}

// Whether the recorded bit, set alone in a stream of zeros, first shows in the recorded symbol: a data symbol's number, its segment, its encoder, its interleaved byte and the higher of its two bits.
pub(crate) fn numbering_agrees(line: &str) -> Result<bool, VectorError> {
    let mut numbers = line.split(' ');
    let symbol = next::<usize>(&mut numbers)?;
    let segment = next::<usize>(&mut numbers)?;
    let _encoder = next::<usize>(&mut numbers)?;
    let byte = next::<usize>(&mut numbers)?;
    let bit = next::<usize>(&mut numbers)?;
    if symbol / 828 != segment || byte / 828 != segment / 4 || bit >= 8 {
        return Ok(false);
    }
    let mut quad = [0u8; 828];
    quad[byte % 828] = 1 << bit;
    Ok(first_sent(&quad, segment / 4) == Some(symbol % 3312))
}
