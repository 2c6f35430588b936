// Arithmetic of the field of 256 made by X^8 + X^4 + X^3 + X^2 + 1: its elements are the bytes, and xor is the sum.
#![tactic(auto)]

ghost use Rattle.galois.specs.Field.{gf_mul, gf_power};
ghost use Rattle.galois.specs.Laws.{FieldLaws};
ghost use Rattle.std.specs.Prelude.{◌≡◌, MatchOption};

mod logarithms;

use logarithms::{logarithm, raised};

// The product of two bytes.
pub fn mul(a: u8, b: u8) -> u8
    ensures { result ≡ gf_mul a b }
{
    raised(logarithm(a) as usize + logarithm(b) as usize)
}

// The byte that a is multiplied by to give 1; there is none for 0.
pub fn inverse(a: u8) -> Option<u8>
    ensures { MatchOption result (a ≡ 0) (λ b. gf_mul a b ≡ 1) }
{
    if a == 0 {
        None
    } else {
        Some(raised(255 - logarithm(a) as usize))
    }
}

// The k-th power of 2.
pub fn power(k: u8) -> u8
    ensures { result ≡ gf_power 2 k }
{
    raised(k as usize)
}

// The byte a times the k-th power of 2.
pub fn scaled(a: u8, k: u8) -> u8
    ensures { result ≡ gf_mul a (gf_power 2 k) }
{
    raised(logarithm(a) as usize + k as usize)
}

// The bytes with xor and mul are a field, and the powers of 2 are all its nonzero elements.
pub fn laws_stand()
    ensures { FieldLaws }
{}

#[cfg(test)]
mod tests {
    use super::*;

    #[test]
    fn products_and_powers(rt: HostRuntime) {
        assert_eq!(rt; mul(2, 128), 29);
        assert_eq!(rt; power(8), 29);
        assert_eq!(rt; scaled(128, 1), 29);
    }

    #[test]
    fn inverses(rt: HostRuntime) {
        assert_eq!(rt; inverse(2), Some(142));
        assert_eq!(rt; inverse(0), None);
    }
}
