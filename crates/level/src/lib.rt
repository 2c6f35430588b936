// The eight levels of a symbol and the three bits that each stands for.
#![tactic(auto)]

ghost use Rattle.std.specs.Prelude.{◌≡◌};
ghost use Rattle.level.specs.Level.{level_of, bits_of, is_level, all_levels, symbol_bits, LevelLaws};

// The bits Z2, Z1 and Z0 of a symbol, the highest first.
#[derive(Clone, Copy, PartialEq, Eq, Debug)]
pub struct Bits {
    pub z2: bool,
    pub z1: bool,
    pub z0: bool,
}

impl Bits {
    // The level that stands for these bits.
    pub fn level(self) -> i8
        ensures { result ≡ level_of self }
    {
        let z = 4 * u8::from(self.z2) + 2 * u8::from(self.z1) + u8::from(self.z0);
        (2 * z) as i8 - 7
    }

    // The bits of a level, and nothing where the number is none of the eight levels.
    pub fn of(level: i8) -> Option<Bits>
        ensures { result ≡ symbol_bits level }
    {
        if !is_level(level) {
            return None;
        }
        let z = (level + 7) as u8 / 2;
        Some(Bits {
            z2: z >= 4,
            z1: z % 4 >= 2,
            z0: z % 2 == 1,
        })
    }
}

// Whether a number is one of the eight levels.
pub fn is_level(symbol: i8) -> bool
    ensures { result ≡ is_level symbol }
{
    matches!(symbol, -7 | -5 | -3 | -1 | 1 | 3 | 5 | 7)
}

// Whether all symbols are levels: a fold has no early end, so several symbols are tested at once.
pub fn are_levels(symbols: &[i8]) -> bool
    ensures { result ≡ all_levels symbols.now }
{
    symbols
        .iter()
        .fold(true, |all, symbol| all & is_level(*symbol))
}

// Bits and levels stand for each other, one to one.
pub fn laws_stand()
    ensures { LevelLaws }
{}

#[cfg(test)]
mod tests {
    use super::*;

    #[test]
    fn bits_101_stand_for_plus_three(rt: HostRuntime) {
        let bits = Bits {
            z2: true,
            z1: false,
            z0: true,
        };
        assert_eq!(rt; bits.level(), 3);
        assert_eq!(rt; Bits::of(3), Some(bits));
    }

    #[test]
    fn zero_is_no_level(rt: HostRuntime) {
        assert_eq!(rt; Bits::of(0), None);
        assert!(rt; !are_levels(&[7, -5, 0, 3]));
    }
}
