// Data segments and field syncs: the sync symbols of both, and what a received field sync tells.
#![tactic(auto)]

ghost use Rattle.std.specs.Prelude.{◌≡◌, ◌+◌, ◌<◌, ◌≤◌, true, map, length, drop, MatchResult, OnOk, nat_eq, slice_index};
ghost use Rattle.level.specs.Level.{all_levels};
ghost use Rattle.segments.specs.Pn.{Recurrences};
ghost use Rattle.segments.specs.Segment.{data_segment, bit_level, sync_bit, field_bit, field_head, copied_level, field_sync, sync_answer, segment_answer, field_answer};
ghost use Rattle.segments.specs.Report.{sign_at, differing, received_bit, received_byte, received_sync, report_answer};
ghost use Rattle.segments.specs.Laws.{ReadBack};

use level::is_level;
use refusal::Refusal;
use std::array;

mod pn;

use pn::{PN63, PN511, is_one};

// The four sync symbols of a segment.
const SYNC_SYMBOLS: [i8; 4] = [5, -5, -5, 5];

// The bits that they stand for.
const SYNC_BITS: [bool; 4] = [true, false, false, true];

// Writes the four sync symbols of a data segment in a memory of 832; the other symbols stay.
pub fn write_data_sync(segment: &mut [i8]) -> Result<(), Refusal>
    ensures answer { result ≡ segment_answer (length segment.old) }
    ensures after { MatchResult result (λ _. segment.new ≡ data_segment (drop 4 segment.old)) (λ _. segment.new ≡ segment.old) }
{
    if segment.len() != 832 {
        return Err(Refusal::WrongLength);
    }
    segment[..4].copy_from_slice(&SYNC_SYMBOLS);
    Ok(())
}

// Accepts sync data as an array: 15 bytes of which the last four bits are zero.
fn accepted(sync: &[u8]) -> Result<&[u8; 15], Refusal>
    ensures { MatchResult result (λ bytes. (bytes.now ≡ sync.now) × (sync_answer sync.now ≡ Ok tt)) (λ refusal. sync_answer sync.now ≡ Err refusal) }
{
    let Some(bytes) = sync.as_array() else {
        return Err(Refusal::WrongLength);
    };
    if bytes[14] % 16 != 0 {
        return Err(Refusal::SyncTailNotZero);
    }
    Ok(bytes)
}

// Checks sync data: 15 bytes of which the last four bits are zero.
pub fn check_sync(sync: &[u8]) -> Result<(), Refusal>
    ensures { result ≡ sync_answer sync.now }
{
    accepted(sync)?;
    Ok(())
}

// Bit k of the sync data.
fn sync_bit(sync: &[u8; 15], k: usize) -> bool
    requires { k < 116 }
    ensures { result ≡ sync_bit sync.now k }
{
    (sync[k / 8] >> (7 - k % 8)) % 2 == 1
}

// The bit at a position of a field sync.
fn field_bit(sync: &[u8; 15], second: bool, position: usize) -> bool
    requires { position < 820 }
    ensures { result ≡ field_bit sync.now second position }
{
    match position {
        0..=3 => SYNC_BITS[position],
        4..=514 => PN511.bit(position - 4),
        515..=577 => PN63.bit(position - 515),
        578..=640 => second != PN63.bit(position - 578),
        641..=703 => PN63.bit(position - 641),
        _ => sync_bit(sync, position - 704),
    }
}

// The level of a bit.
fn bit_level(bit: bool) -> i8
    ensures { result ≡ bit_level bit }
{
    if bit { 5 } else { -5 }
}

// The levels of the 820 bits of a field sync: of its sync data and its field, which a struct would join for this one call.
fn bit_levels(sync: &[u8; 15], second: bool) -> [i8; 820]
    ensures { result ≡ field_head sync.now second }
{
    array::from_fn(|position| bit_level(field_bit(sync, second, position)))
}

// A symbol where it is a level, and −5 where not.
fn copied_level(symbol: i8) -> i8
    ensures { result ≡ copied_level symbol }
{
    if is_level(symbol) { symbol } else { -5 }
}

// Keeps the symbols that are levels, and puts −5 for the others.
fn keep_levels(symbols: &mut [i8])
    ensures { symbols.new ≡ map copied_level symbols.old }
{
    for symbol in symbols.iter_mut() {
        *symbol = copied_level(*symbol);
    }
}

// Makes a field sync in the memory of the segment that was put before, whose last twelve symbols it copies.
pub fn write_field_sync(sync: &[u8], second: bool, last: &mut [i8]) -> Result<(), Refusal>
    ensures answer { result ≡ field_answer sync.now (length last.old) }
    ensures after { MatchResult result (λ _. last.new ≡ field_sync sync.now second (drop 820 last.old)) (λ _. last.new ≡ last.old) }
    ensures levels { OnOk result (all_levels last.new ≡ true) }
{
    if last.len() != 832 {
        return Err(Refusal::WrongLength);
    }
    let sync = accepted(sync)?;
    let (bits, copied) = last.split_at_mut(820);
    bits.copy_from_slice(&bit_levels(sync, second));
    keep_levels(copied);
    Ok(())
}

// What a received field sync tells: whether its second PN63 is inverted, and how many signs of PN511 are wrong.
#[derive(Clone, Copy, PartialEq, Eq, Debug)]
pub struct FieldReport {
    pub inverted: bool,
    pub wrong: u16,
}

// Bit k of the sync data received: 704 bits stand before the first, and the last four are zero.
fn received_bit(segment: &[i8; 832], k: usize) -> bool
    ensures { result ≡ received_bit segment.now k }
{
    k < 116 && is_one(segment[704 + k])
}

// Byte n of the sync data received.
fn received_byte(segment: &[i8; 832], n: usize) -> u8
    requires { n < 15 }
    ensures { result ≡ received_byte segment.now n }
{
    (0..8).fold(
        0,
        |byte, k| byte << 1 | u8::from(received_bit(segment, 8 * n + k)),
    )
}

// The sync data received.
fn received_sync(segment: &[i8; 832]) -> [u8; 15]
    ensures { result ≡ received_sync segment.now }
{
    array::from_fn(|n| received_byte(segment, n))
}

// Reads a received field sync by the signs of its levels, and its sync data into a memory of 15 bytes.
pub fn read_field_sync(segment: &[i8], sync: &mut [u8]) -> Result<FieldReport, Refusal>
    ensures answer { result ≡ report_answer segment.now (length sync.old) }
    ensures after { MatchResult result (λ _. sync.new ≡ received_sync segment.now) (λ _. sync.new ≡ sync.old) }
{
    let Some(segment) = segment.as_array() else {
        return Err(Refusal::WrongLength);
    };
    let Some(sync) = sync.as_mut_array() else {
        return Err(Refusal::WrongLength);
    };
    *sync = received_sync(segment);
    Ok(FieldReport {
        inverted: PN63.differing(&segment[578..641]) > 31,
        wrong: PN511.differing(&segment[4..515]) as u16,
    })
}

// PN511 and PN63 follow their recurrences, and a field sync tells what it was made of.
pub fn laws_stand()
    ensures recurrences { Recurrences }
    ensures read_back { ReadBack }
{}

#[cfg(test)]
mod tests {
    use super::*;
    use std::test::Fail;

    #[test]
    fn a_field_sync_is_read_back(rt: HostRuntime) -> Result<(), Fail> {
        let sync = [0xa5, 0, 1, 2, 3, 4, 5, 6, 7, 8, 9, 10, 11, 12, 0xf0];
        let mut segment = [0; 832];
        segment[831] = 7;
        write_field_sync(&sync, true, &mut segment)?;
        assert_eq!(rt; segment[3], 5);
        assert_eq!(rt; segment[704], 5);
        assert_eq!(rt; segment[830], -5);
        assert_eq!(rt; segment[831], 7);
        let mut read = [0; 15];
        let report = read_field_sync(&segment, &mut read)?;
        assert_eq!(rt;
            report,
            FieldReport {
                inverted: true,
                wrong: 0,
            }
        );
        assert_eq!(rt; read, sync);
        Ok(())
    }

    #[test]
    fn wrong_sync_data_is_refused(rt: HostRuntime) {
        assert_eq!(rt; check_sync(&[0; 14]), Err(Refusal::WrongLength));
        let mut sync = [0; 15];
        assert_eq!(rt; check_sync(&sync), Ok(()));
        sync[14] = 8;
        assert_eq!(rt;
            write_field_sync(&sync, false, &mut [0; 832]),
            Err(Refusal::SyncTailNotZero)
        );
        assert_eq!(rt;
            write_field_sync(&sync, false, &mut [0; 831]),
            Err(Refusal::WrongLength)
        );
    }
}
