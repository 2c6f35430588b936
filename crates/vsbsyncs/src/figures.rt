// Compares lines of figures with what crate segments makes of them.
use crate::parse;
use crate::parse::BadWord;
use segments::{FieldReport, read_field_sync, write_field_sync};
use std::array;

// Whether the field sync that is written is the one of the line: field, sync data, last twelve symbols, field sync.
pub(crate) fn sync_agrees(line: &str) -> Result<bool, BadWord> {
    let mut words = line.split(' ');
    let [Some(second), Some(sync), Some(last), Some(expected), None]: [_; 5] = array::from_fn(
        |_| words.next(),
    ) else {
        return Err(BadWord::Parts);
    };
    let second = parse::bit(second)?;
    let sync = parse::sync_data(sync)?;
    let mut last = parse::last_segment(last)?;
    let expected = parse::segment(expected)?;
    Ok(write_field_sync(&sync, second, &mut last).is_ok() && last == expected)
}

// Whether the report of a received field sync is the one of the line: received field sync, inverted, wrong signs, sync data.
pub(crate) fn report_agrees(line: &str) -> Result<bool, BadWord> {
    let mut words = line.split(' ');
    let [
        Some(segment),
        Some(inverted),
        Some(wrong),
        Some(expected),
        None,
    ]: [_; 5] = array::from_fn(|_| words.next())
    else {
        return Err(BadWord::Parts);
    };
    let segment = parse::segment(segment)?;
    let inverted = parse::bit(inverted)?;
    let wrong = wrong.parse()?;
    let expected = parse::sync_data(expected)?;
    let mut sync = [0; 15];
    let told = read_field_sync(&segment, &mut sync);
    Ok(told == Ok(FieldReport { inverted, wrong }) && sync == expected)
}
