// The roots of a locator among the places of a row.
ghost use Rattle.std.specs.Prelude.{◌≡◌, ℕ, ◌+◌, ◌-◌, ◌*◌, ◌%◌, ◌<◌, ◌≤◌, slice_index};
ghost use Rattle.correction.specs.Equations.{sum_on};
ghost use Rattle.correction.specs.Polynomials.{polynomial, roots_of, Values};
ghost use Rattle.galois.specs.Field.{gf_mul, gf_power};
ghost use Rattle.rows.proofs.Values.{bytes};

use crate::locator::Locator;
use arrayvec::ArrayVec;
use galois::{power, scaled};
use std::array;

// The roots, as powers of 2, and the locator's value at the place of each byte of the row, in memory for the longest one: there is no heap.
// What the values are is said by the functions: as a field it would need the locator and the row's length beside them.
#[derive(Drop)]
pub(crate) struct Roots {
    pub(crate) at: ArrayVec<u8, 10>,
    pub(crate) values: [u8; 256],
}

// The locator's terms at 2^m: coefficient j times the j-th power of 2^m.
fn terms(locator: &Locator, m: usize) -> [u8; 11]
    requires { m ≤ 255 }
    ensures { (j : ℕ) → j < 11 → slice_index result j ≡ gf_mul (slice_index locator.now.coefficients j) (gf_power 2 (m * j % 255)) }
{
    array::from_fn(|j| scaled(locator.coefficients[j], (m * j % 255) as u8))
}

// The sums of the first d + 1 terms at the next four places, to which the terms are taken on: q places on, term j times the q j-th power of the inverse of 2.
fn next_values(e: &mut [u8; 11], d: usize) -> [u8; 4]
    requires { d ≤ 10 }
    ensures sums { (q : ℕ) → q < 4 → slice_index result q ≡ sum_on (q + 1) (d + 1) e.old }
    ensures are { (j : ℕ) → j < d + 1 → slice_index e.new j ≡ gf_mul (slice_index e.old j) (gf_power 2 (255 - 4 * j)) }
{
    let [mut one, mut two, mut three, mut four] = [0u8; 4];
    // By index: what is written through an adapter of iter_mut is not known to the check, and a second array for the terms costs time.
    for j in 0..d + 1 {
        let term = e[j];
        let last = scaled(term, (255 - 4 * j) as u8);
        one ^= scaled(term, (255 - j) as u8);
        two ^= scaled(term, (255 - 2 * j) as u8);
        three ^= scaled(term, (255 - 3 * j) as u8);
        four ^= last;
        e[j] = last;
    }
    [one, two, three, four]
}

// The locator's values at the places of a row of n bytes, from the first byte's on.
fn all_values(locator: &Locator, n: usize) -> [u8; 256]
    requires { n ≤ 255 }
    ensures { Values (polynomial locator.now.coefficients locator.now.degree) n result }
{
    let mut all = [0u8; 256];
    let mut e = terms(locator, n);
    // By number of the block: what is written through chunks_exact_mut is not known to the check.
    for block in 0..n.div_ceil(4) {
        let i = 4 * block;
        all[i..i + 4].copy_from_slice(&next_values(&mut e, locator.degree));
    }
    all
}

// The locator's roots among the places of a row of n bytes.
pub(crate) fn find(locator: &Locator, n: usize) -> Roots
    requires some { 0 < n }
    requires places { n ≤ 255 }
    ensures are { bytes result.at.items ≡ roots_of (polynomial locator.now.coefficients locator.now.degree) n }
    ensures values { Values (polynomial locator.now.coefficients locator.now.degree) n result.values }
{
    let mut at = ArrayVec::new();
    let values = all_values(locator, n);
    for (i, value) in values[..n].iter().enumerate() {
        if *value == 0 {
            at.push(power((n - 1 - i) as u8));
        }
    }
    Roots { at, values }
}
