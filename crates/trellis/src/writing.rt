// The writer of data symbols.
ghost use Rattle.std.specs.Prelude.{◌≡◌, ℕ, ◌<◌, length, replicate, MatchResult};
ghost use Rattle.trellis.specs.Sent.{new_encoder};
ghost use Rattle.trellis.specs.Writer.{EncodersAfter, write_answer, PairSent, Writes, WritesOn, WritesOne};

use crate::encoding::{Encoder, is_set};
use crate::lanes::{Coder, Lane, walk};
use refusal::Refusal;

impl Encoder {
    // The level for a pair of a byte's bits, pair 0 being the highest; the encoder moves on.
    fn send_pair(&mut self, byte: u8, pair: usize) -> i8
        requires { pair < 4 }
        ensures { PairSent byte pair result self.old self.new }
    {
        self.step(is_set(byte, 7 - 2 * pair), is_set(byte, 6 - 2 * pair))
    }
}

// An encoder writes symbols for the bytes of a quad.
impl Coder<[u8; 828], [i8; 828]> for Encoder {
    ghost goes = { WritesOn };

    fn symbol(&mut self, quad: &[u8; 828], lane: Lane, g: usize, out: &mut [i8; 828]) {
        let group = lane.first + g;
        let byte = quad[lane.byte(group)];
        out[12 * g + lane.place] = self.send_pair(byte, group % 4);
    }

    fn byte(&mut self, quad: &[u8; 828], lane: Lane, g: usize, out: &mut [i8; 828]) {
        let byte = quad[lane.byte(lane.first + g)];
        // Four calls, and no store before the last: so the encoder's bits stay in registers, which is faster.
        let levels = [
            self.send_pair(byte, 0),
            self.send_pair(byte, 1),
            self.send_pair(byte, 2),
            self.send_pair(byte, 3),
        ];
        let place = 12 * g + lane.place;
        out[place] = levels[0];
        out[place + 12] = levels[1];
        out[place + 24] = levels[2];
        out[place + 36] = levels[3];
    }

    ghost laws = { record { stays = λ q f p g e o. λ start given h. h; joins = λ q f p a b c x y z i j k s t. λ start given h. t start given (s start given h) } };
}

// The twelve encoders.
#[derive(Drop)]
pub struct Trellis {
    encoders: [Encoder; 12],
}

impl Trellis {
    // Twelve encoders that have sent nothing.
    pub fn new() -> Trellis
        ensures new { result.encoders ≡ replicate 12 new_encoder }
        ensures history { (bytes : ℕ → ℕ) → EncodersAfter bytes 0 result.encoders }
    {
        let encoders = [Encoder::new(); 12];
        Trellis { encoders }
    }

    // Writes the symbols of one encoder in a data segment.
    fn write_one(&mut self, e: usize, quad: &[u8; 828], lane: Lane, out: &mut [i8; 828])
        requires { e < 12 }
        ensures { WritesOne quad.now lane.first lane.place e self.old.encoders out.old out.new self.new.encoders }
    {
        walk(&mut self.encoders[e], quad, lane, out);
    }

    // Writes the 828 symbols of the next data segment; `segment` is its number since the start, of which the remainder mod 12 counts.
    pub fn write(&mut self, quad: &[u8], segment: usize, out: &mut [i8]) -> Result<(), Refusal>
        ensures answer { result ≡ write_answer (length quad.now) (length out.old) }
        ensures after { MatchResult result (λ _. Writes quad.now segment self.old.encoders out.new self.new.encoders) (λ _. (self.new ≡ self.old) × (out.new ≡ out.old)) }
    {
        let Some(quad) = quad.as_array() else {
            return Err(Refusal::WrongLength);
        };
        let Some(out) = out.as_mut_array() else {
            return Err(Refusal::WrongLength);
        };
        let turn = 4 * (segment % 3);
        let first = 69 * (segment % 4);
        // The reader has this loop too: what is promised of the twelve lanes differs, and one loop over both would be no plainer.
        for place in 0..12 {
            self.write_one((place + turn) % 12, quad, Lane { first, place }, out);
        }
        Ok(())
    }
}
