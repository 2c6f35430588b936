// A packet's row of 207 bytes, and the packet's bytes from its row.
ghost use Rattle.randomizer.specs.Row.{row_of, bytes_of, code_packet_answer, packet_bytes_answer, PacketReturns};
ghost use Rattle.std.specs.Prelude.{◌≡◌, length, MatchResult};

use crate::combine;
use reed_solomon::complete;
use refusal::Refusal;

// Writes the row of the packet at a place: the packet of 188 bytes without its first, randomized, and 20 parity bytes.
// Another length of the packet or of the row is refused, and the row stays.
pub fn code_packet(packet: &[u8], place: usize, row: &mut [u8]) -> Result<(), Refusal>
    ensures answer { result ≡ code_packet_answer (length packet.now) (length row.old) }
    ensures after { MatchResult result (λ _. row.new ≡ row_of place packet.now) (λ _. row.new ≡ row.old) }
{
    if packet.len() != 188 || row.len() != 207 {
        return Err(Refusal::WrongLength);
    }
    combine(&packet[1..188], place, &mut row[0..187])?;
    complete(row)
}

// Writes the 187 bytes of a packet after its first from the packet's row, by its place.
// Another length of the row or of the memory is refused, and the memory stays.
pub fn packet_bytes(row: &[u8], place: usize, bytes: &mut [u8]) -> Result<(), Refusal>
    ensures answer { result ≡ packet_bytes_answer (length row.now) (length bytes.old) }
    ensures after { MatchResult result (λ _. bytes.new ≡ bytes_of place row.now) (λ _. bytes.new ≡ bytes.old) }
{
    if row.len() != 207 {
        return Err(Refusal::WrongLength);
    }
    combine(&row[0..187], place, bytes)
}

// The row of a packet gives the packet's bytes back.
pub fn packet_returns_stands()
    ensures { PacketReturns }
{}
