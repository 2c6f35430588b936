// PN511 and PN63 as tables of bits.
ghost use Rattle.std.specs.Prelude.{◌≡◌, ◌^◌, ◌<◌, ◌≤◌, length, ℤ, pos, int_lt};
ghost use Rattle.segments.specs.Segment.{differ};
ghost use Rattle.segments.specs.Report.{sign_at, digit_bit, count};

// A sequence of N bits, as digits.
#[derive(Clone, Copy)]
pub(crate) struct Sequence<const N: usize>(&'static [u8; N]);

// The bit that a level stands for: one where it is above zero.
pub(crate) fn is_one(level: i8) -> bool
    ensures { result ≡ int_lt (pos 0) level }
{
    level > 0
}

impl<const N: usize> Sequence<N> {
    // Bit k.
    pub(crate) fn bit(self, k: usize) -> bool
        requires { k < N }
        ensures { result ≡ digit_bit self.entry.0.now k }
    {
        self.0[k] == b'1'
    }

    // How many of its bits differ from those that levels stand for.
    pub(crate) fn differing(self, levels: &[i8]) -> usize
        requires same { length levels.now ≡ N }
        requires small { N < 2 ^ 16 }
        ensures few { result ≤ length levels.now }
        ensures count { result ≡ count (λ k. differ (sign_at levels.now k) (digit_bit self.entry.0.now k)) (length levels.now) }
    {
        let Sequence(digits) = self;
        // By a sum of 16 bits, which has no branch: `filter` and `count` take six times as long.
        let wrong = levels.iter().zip(digits.iter()).fold(
            0u16,
            |wrong, (level, digit)| wrong.wrapping_add(u16::from(
                is_one(*level) != (*digit == b'1'),
            )),
        );
        usize::from(wrong)
    }
}

// The 511 bits of PN511, as digits.
pub(crate) const PN511: Sequence<511> = Sequence(
    b"\
    0000000101111111110010101010111001100110100010001001111000011101011111010\
    0110101001110110011101001000101100011110010000101000111110011110101000101\
    0011000011000100000100001111110000010101000000110011111110111010101001011\
    0011000110111011110110100101001001110011100010111010000110100111110110001\
    0101101111001101101011101101100101101101110010010010111000111001011110100\
    0110101100001001101111100010010101111000110010100001000110000011110111111\
    0101101010110010011001000111011100001011010000011011000000100100000001110",
);

// The 63 bits of PN63, as digits.
pub(crate) const PN63: Sequence<63> = Sequence(
    b"\
    111001001011011101100110101011111100000100001100010100111101000",
);
