// The randomizer of a field's packets: sixteen stages that give one byte a step, each combined with one byte of a packet.
#![tactic(auto)]

ghost use Rattle.std.specs.Prelude.{◌≡◌, ℕ, ◌<◌, length, MatchResult, bit_xor, slice_index};
ghost use Rattle.randomizer.specs.Stages.{after, keys_from};
ghost use Rattle.randomizer.specs.Packets.{state_at, randomized, combine_answer};
ghost use Rattle.randomizer.specs.Laws.{StepLaw, FirstBytes, FieldLaw, ByteLaw, RoundTrip};

mod key_tables;
mod row;

use key_tables::{FOLD, HIGH, LOW, STARTS};
use refusal::Refusal;
pub use row::{code_packet, packet_bytes, packet_returns_stands};

// The bytes of a packet after its first, and of a row before its parity bytes.
const BYTES: usize = 187;

// The keys that are made for a packet, in blocks of eight; the last five are left over.
const KEYS: usize = 192;

// The packets of a field.
const PACKETS: usize = 312;

// The state with which the packet at a place begins.
fn first_state(place: usize) -> u16
    ensures { result ≡ state_at place }
{
    STARTS[place % PACKETS]
}

// The eight bytes from a state on: those of its two halves, since each byte is linear over xor.
fn eight_keys(state: u16) -> [u8; 8]
    ensures { result ≡ keys_from 8 state }
{
    (HIGH[(state / 256) as usize] ^ LOW[(state % 256) as usize]).to_le_bytes()
}

// The state eight steps on: stages 1 to 8 come to be 9 to 16, and the others fold back.
fn eight_steps(state: u16) -> u16
    ensures { result ≡ after 8 state }
{
    FOLD[(state / 256) as usize] ^ (state % 256 * 256)
}

// The bytes from a state on, eight at a time.
fn keys(first: u16) -> [u8; KEYS]
    ensures { result ≡ keys_from 192 first }
{
    let mut keys = [0; KEYS];
    let mut state = first;
    // By index: what is written through chunks_mut is not known to the check.
    for block in 0..KEYS / 8 {
        keys[8 * block..8 * block + 8].copy_from_slice(&eight_keys(state));
        state = eight_steps(state);
    }
    keys
}

// Writes the bytes, each combined with the key of its index.
// By index: what is written through a zip of iter_mut is not known to the check, and array::from_fn is four times slower.
fn xor_each(bytes: &[u8; BYTES], keys: &[u8; KEYS], out: &mut [u8; BYTES])
    ensures { (j : ℕ) → j < 187 → slice_index out.new j ≡ bit_xor (slice_index bytes.now j) (slice_index keys.now j) }
{
    for j in 0..BYTES {
        out[j] = bytes[j] ^ keys[j];
    }
}

// Combines the 187 bytes of the packet at a place with the randomizer's; done twice at one place it gives them back.
// Another length of the bytes or of the memory is refused, and the memory stays.
pub fn combine(bytes: &[u8], place: usize, out: &mut [u8]) -> Result<(), Refusal>
    ensures answer { result ≡ combine_answer (length bytes.now) (length out.old) }
    ensures after { MatchResult result (λ _. out.new ≡ randomized place bytes.now) (λ _. out.new ≡ out.old) }
{
    let bytes = bytes.as_array::<BYTES>().ok_or(Refusal::WrongLength)?;
    let out = out.as_mut_array::<BYTES>().ok_or(Refusal::WrongLength)?;
    xor_each(bytes, &keys(first_state(place)), out);
    Ok(())
}

// The laws of the randomizer, for a caller to cite.
pub fn round_trip_stands()
    ensures step { StepLaw }
    ensures first { FirstBytes }
    ensures field { FieldLaw }
    ensures bytes { ByteLaw }
    ensures back { RoundTrip }
{}

#[cfg(test)]
mod tests {
    use super::combine;
    use std::test::Fail;

    // Zero bytes show the sequence, which begins anew with each field.
    #[test]
    fn first_keys(rt: HostRuntime) -> Result<(), Fail> {
        let mut out = [0u8; 187];
        combine(&[0; 187], 312, &mut out)?;
        assert_eq!(rt; &out[0..4], [0xc0, 0x6d, 0x3f, 0x99].as_slice());
        Ok(())
    }

    // A whole packet is refused.
    #[test]
    fn whole_packet_refused(rt: HostRuntime) {
        assert!(rt; combine(&[0; 188], 0, &mut [0; 187]).is_err());
    }
}
