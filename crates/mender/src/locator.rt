// The locator: a polynomial that is zero at the place of every wrong byte, where at most ten are wrong.
ghost use Rattle.std.specs.Prelude.{◌≡◌, ℕ, ◌+◌, ◌<◌, ◌≤◌, length, bit_xor, slice_index, MatchOption};
ghost use Rattle.correction.specs.Equations.{discrepancy, Monic, Locates};
ghost use Rattle.galois.specs.Field.{gf_mul};
ghost use Rattle.mender.specs.Pivots.{HasPivots};

use galois::{inverse, mul};

// A monic polynomial, the lowest coefficient first, in memory for the highest degree: there is no heap.
#[derive(Drop)]
pub(crate) struct Locator {
    pub(crate) coefficients: [u8; 11],
    pub(crate) degree: usize,
    ghost few: { degree ≤ 10 },
    ghost monic: { Monic degree coefficients },
}

// A polynomial that fails an equation, and the inverse of its discrepancy there.
#[derive(Clone, Copy)]
struct Pivot {
    polynomial: [u8; 11],
    inverse: u8,
}

// For each equation its pivot, where there is one yet.
#[derive(Drop)]
struct Pivots([Option<Pivot>; 10]);

// The polynomial X^j.
fn monomial(j: usize) -> [u8; 11]
    requires { j < 11 }
    ensures { Monic j result }
{
    let mut v = [0u8; 11];
    v[j] = 1;
    v
}

// Adds c times u to v, where the coefficients of u from m on are 0.
fn add_multiple(v: &mut [u8; 11], c: u8, u: &[u8; 11], m: usize)
    requires few { m ≤ 11 }
    requires zero_behind { (k : ℕ) → m ≤ k → slice_index u.now k ≡ 0 }
    ensures { (k : ℕ) → k < 11 → slice_index v.new k ≡ bit_xor (slice_index v.old k) (gf_mul c (slice_index u.now k)) }
{
    // v by index: what is written through a zip of iter_mut is not known to the check.
    for (k, y) in u[..m].iter().enumerate() {
        v[k] ^= mul(c, *y);
    }
}

// What the coefficients v leave of the equation whose syndromes s begins with.
fn discrepancy_of(v: &[u8], s: &[u8]) -> u8
    requires { length v.now ≤ length s.now }
    ensures { result ≡ discrepancy (length v.now) v.now s.now 0 }
{
    let mut sum = 0;
    for (syndrome, coefficient) in s.iter().zip(v) {
        sum ^= mul(*syndrome, *coefficient);
    }
    sum
}

// The inverse of a byte that is not 0.
pub(crate) fn inverted(a: u8) -> u8
    requires { 0 < a }
    ensures { gf_mul a result ≡ 1 }
{
    inverse(a).unwrap()
}

impl Pivots {
    // Makes v, monic of degree j, solve one equation after another by multiples of the pivots: a locator, where it solves all.
    // At the first that it fails and that has no pivot, v becomes the pivot.
    // v and j stay apart until then: passed as a locator, ten wrong bytes are mended 2 % slower, at less than four times libfec's speed.
    fn reduce(&mut self, mut v: [u8; 11], j: usize, s: &[u8; 20]) -> Option<Locator>
        requires degree { j ≤ 10 }
        requires monic { Monic j v }
        requires eliminated { HasPivots j s.now self.old.0 }
        ensures { MatchOption result (HasPivots (j + 1) s.now self.new.0) (λ l. Locates 10 s.now l.coefficients l.degree) }
    {
        for (i, pivot) in self.0.iter().enumerate() {
            let d = discrepancy_of(&v[..j + 1], &s[i..]);
            if d != 0 {
                match pivot {
                    Some(pivot) => add_multiple(
                        &mut v,
                        mul(d, pivot.inverse),
                        &pivot.polynomial,
                        j,
                    ),
                    None => {
                        let inverse = inverted(d);
                        self.0[i] = Some(Pivot {
                            polynomial: v,
                            inverse,
                        });
                        return None;
                    }
                }
            }
        }
        Some(Locator {
            coefficients: v,
            degree: j,
        })
    }
}

// A locator for the syndromes, of the lowest degree that the elimination finds.
pub(crate) fn find(s: &[u8; 20]) -> Locator
    ensures { Locates 10 s.now result.coefficients result.degree }
{
    let mut pivots = Pivots([None; 10]);
    for j in 0..11 {
        if let Some(locator) = pivots.reduce(monomial(j), j, s) {
            return locator;
        }
    }
    unreachable()
}
