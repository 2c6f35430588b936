// The rows coded from a stream of packets, compared with recorded rows.
ghost use Rattle.std.specs.Prelude.{◌≡◌, ◌≤◌, min, length, count_by};
ghost use Rattle.std.specs.List.{enumerate_from, zip};
ghost use Rattle.randomizer.specs.Row.{row_of};
ghost use Rattle.std.specs.Str.{bytes_eq};
ghost use Rattle.vsbrows.specs.Compared.{coded_to, Compares};

use randomizer::code_packet;
use vectors::Tally;

// Bytes of a packet and of a row.
const PACKET: usize = 188;

const ROW: usize = 207;

// What a comparison found.
#[derive(Clone, Copy)]
pub struct Comparison {
    // Whole packets and whole recorded rows.
    pub packets: usize,
    pub rows: usize,
    // Packets with a recorded row, by whether the coded row equals it.
    pub tally: Tally,
    // Bytes after the last whole packet and the last whole row.
    pub short_packet: usize,
    pub short_row: usize,
}

// Whether a packet at a place is coded to the recorded row.
fn row_agrees(packet: &[u8; PACKET], place: usize, recorded: &[u8; ROW]) -> bool
    ensures { result ≡ bytes_eq (row_of place packet.now) recorded.now }
{
    let mut row = [0u8; ROW];
    code_packet(packet, place, &mut row).is_ok() && row == *recorded
}

// How many packets are coded to their recorded rows.
fn count_equal(packets: &[[u8; PACKET]], rows: &[[u8; ROW]]) -> usize
    ensures value { result ≡ count_by coded_to (enumerate_from 0 (zip packets.now rows.now)) }
    ensures most { result ≤ min (length packets.now) (length rows.now) }
{
    packets
        .iter()
        .zip(rows)
        .enumerate()
        .filter(|(t, (packet, row))| row_agrees(packet, *t, row))
        .count()
}

// Codes each packet by its place in the stream, fields of 312, and compares with the recorded rows.
pub fn compare(packets: &[u8], rows: &[u8]) -> Comparison
    ensures { Compares packets.now rows.now result }
{
    let (packets, short_packet) = packets.as_chunks::<PACKET>();
    let (rows, short_row) = rows.as_chunks::<ROW>();
    let count = packets.len().min(rows.len());
    let equal = count_equal(packets, rows);
    Comparison {
        packets: packets.len(),
        rows: rows.len(),
        tally: Tally {
            equal,
            different: count - equal,
        },
        short_packet: short_packet.len(),
        short_row: short_row.len(),
    }
}
