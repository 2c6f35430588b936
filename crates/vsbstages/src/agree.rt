// Whether a recorded line agrees with what the library makes of it.
// Each takes what the comparison's closure has: where memory comes from, and the line. A struct of the two would be made for one call.
use randomizer::{code_packet, combine};
use reed_solomon::complete;
use std::alloc::Global;
use std::array;
use vectors::{VectorError, bytes};

// Whether the data are completed by the recorded parity bytes: the number of data bytes, the data, their twenty parity bytes.
pub(crate) fn parity_agrees(alloc: Global, line: &str) -> Result<bool, VectorError> {
    let mut words = line.split(' ');
    let [Some(_), Some(data), Some(parity), None]: [_; 4] = array::from_fn(|_| words.next()) else {
        return Err(VectorError::Malformed);
    };
    let mut row = bytes(alloc, data.as_bytes())?;
    let parity = bytes(alloc, parity.as_bytes())?;
    let count = row.len();
    for byte in &parity {
        row.push(!*byte)?;
    }
    Ok(complete(&mut row).is_ok() && row.as_slice().get(count..) == Some(parity.as_slice()))
}

// Whether the packet at its place has the recorded row: a place in the field, a packet, its row.
pub(crate) fn row_agrees(alloc: Global, line: &str) -> Result<bool, VectorError> {
    let mut words = line.split(' ');
    let [Some(place), Some(packet), Some(recorded), None]: [_; 4] = array::from_fn(|_| words.next())
    else {
        return Err(VectorError::Malformed);
    };
    let place = place.parse::<usize>()?;
    let packet = bytes(alloc, packet.as_bytes())?;
    let recorded = bytes(alloc, recorded.as_bytes())?;
    let mut row = [0u8; 207];
    Ok(code_packet(&packet, place, &mut row).is_ok() && &row[0..207] == recorded.as_slice())
}

// Whether the randomizer begins with the recorded bytes: its first 187.
pub(crate) fn key_agrees(alloc: Global, line: &str) -> Result<bool, VectorError> {
    let recorded = bytes(alloc, line.as_bytes())?;
    let mut key = [0u8; 187];
    Ok(combine(&[0; 187], 0, &mut key).is_ok() && &key[0..187] == recorded.as_slice())
}
