// The syndromes of a row: its values at the first 20 powers of 2.
ghost use Rattle.std.specs.Prelude.{◌≡◌, ℕ, ◌<◌, bit_xor, slice_index};
ghost use Rattle.galois.specs.Field.{gf_mul, gf_power};
ghost use Rattle.rows.specs.Code.{row_value};

use galois::scaled;
use std::array;

// One byte more: syndrome k times the k-th power of 2, plus the byte.
fn fold(s: &[u8; 20], byte: u8) -> [u8; 20]
    ensures { (k : ℕ) → k < 20 → slice_index result k ≡ bit_xor (gf_mul (slice_index s.now k) (gf_power 2 k)) byte }
{
    array::from_fn(|k| scaled(s[k], k as u8) ^ byte)
}

// The values of the row at the first 20 powers of 2.
pub(crate) fn syndromes(row: &[u8; 20]) -> [u8; 20]
    ensures { (k : ℕ) → k < 20 → slice_index result k ≡ row_value row.now (gf_power 2 k) }
{
    let mut s = [0u8; 20];
    for byte in row {
        s = fold(&s, *byte);
    }
    s
}
