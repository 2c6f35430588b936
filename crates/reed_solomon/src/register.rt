// What is left so far of a row that is divided by the generator, in two words.
ghost use Rattle.reed_solomon.specs.Held.{held, step};
ghost use Rattle.rows.specs.Parity.{parity};
ghost use Rattle.std.specs.Prelude.{◌≡◌};

use crate::multiples::multiple;

// 2^120: the first byte of the high word stands above it.
const TO_120: u128 = 0x01000000_00000000_00000000_00000000;

// 2^112: the first two bytes of the high word stand above it.
const TO_112: u128 = 0x00010000_00000000_00000000_00000000;

// 2^24: the first byte of the low word stands above it.
const TO_24: u32 = 0x01000000;

// 2^16: the first two bytes of the low word stand above it.
const TO_16: u32 = 0x00010000;

// 20 bytes: the first 16 as one number, and the last 4.
#[derive(Clone, Copy, Drop)]
pub(crate) struct Register {
    pub(crate) high: u128,
    pub(crate) low: u32,
}

impl Register {
    // One step of the division: the byte b comes in.
    pub(crate) fn roll(self, b: u8) -> Register
        ensures { held result ≡ step (held self) b }
    {
        let off = multiple(0, b ^ (self.high / TO_120) as u8);
        let high = self.high % TO_120 * 256 + (self.low / TO_24) as u128;
        let low = self.low % TO_24 * 256;
        Register {
            high: high ^ off.high,
            low: low ^ off.low,
        }
    }

    // Two steps at once: the byte a comes in, and b behind it.
    pub(crate) fn roll_two(self, a: u8, b: u8) -> Register
        ensures { held result ≡ step (step (held self) a) b }
    {
        let first = multiple(1, a ^ (self.high / TO_120) as u8);
        let second = multiple(0, b ^ (self.high / TO_112 % 256) as u8);
        let high = self.high % TO_112 * 65536 + (self.low / TO_16) as u128;
        let low = self.low % TO_16 * 65536;
        Register {
            high: high ^ first.high ^ second.high,
            low: low ^ first.low ^ second.low,
        }
    }

    // The 20 bytes.
    pub(crate) fn bytes(self) -> [u8; 20]
        ensures { result ≡ held self }
    {
        let mut bytes = [0u8; 20];
        bytes[..16].copy_from_slice(&self.high.to_be_bytes());
        bytes[16..].copy_from_slice(&self.low.to_be_bytes());
        bytes
    }
}

// The parity bytes of the bytes, two of which are taken at a time.
pub(crate) fn divided(bytes: &[u8]) -> Register
    ensures { held result ≡ parity 20 bytes.now }
{
    let (pairs, last) = bytes.as_chunks::<2>();
    let mut left = Register { high: 0, low: 0 };
    for &[a, b] in pairs {
        left = left.roll_two(a, b);
    }
    // By a match and not a loop, with which the bytes of short rows take a third more time.
    match last {
        [b] => left.roll(*b),
        _ => left,
    }
}
