// One trellis encoder.
ghost use Rattle.std.specs.Prelude.{◌≡◌, ◌<◌};
ghost use Rattle.level.specs.Level.{level_of};
ghost use Rattle.trellis.specs.Sent.{new_encoder, sent_bits, stepped, bit_of};

use level::Bits;

// The three bits of an encoder.
#[derive(Clone, Copy, Default)]
pub struct Encoder {
    y: bool,
    a: bool,
    b: bool,
}

impl Encoder {
    // An encoder that has sent nothing.
    pub fn new() -> Encoder
        ensures { result ≡ new_encoder }
    {
        Encoder::default()
    }

    // The level for the bits X2 and X1; the encoder moves on.
    pub fn step(&mut self, x2: bool, x1: bool) -> i8
        ensures symbol { result ≡ level_of (sent_bits self.old x2 x1) }
        ensures after { self.new ≡ stepped self.old x2 x1 }
    {
        let bits = Bits {
            z2: x2 ^ self.y,
            z1: x1,
            z0: self.a,
        };
        self.y = bits.z2;
        self.a = x1 ^ self.b;
        self.b = bits.z0;
        bits.level()
    }
}

// Whether a bit of a byte is set.
pub(crate) fn is_set(byte: u8, place: usize) -> bool
    requires { place < 8 }
    ensures { result ≡ bit_of byte place }
{
    (byte >> place) % 2 == 1
}
