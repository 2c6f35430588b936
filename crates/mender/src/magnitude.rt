// What is to be added at a root.
ghost use Rattle.std.specs.Prelude.{◌≡◌, ℕ, ◌+◌, ◌<◌, ◌≤◌, length, bit_xor, slice_index};
ghost use Rattle.correction.specs.Polynomials.{entry as syndrome, magnitude_at};
ghost use Rattle.galois.specs.Field.{gf_mul};
ghost use Rattle.rows.proofs.Bytes.{to_byte};
ghost use Rattle.rows.proofs.Values.{bytes};

use crate::locator::inverted;
use galois::mul;

// Takes the root r out of the first m syndromes: each becomes the next plus r times itself.
fn take_out(w: &mut [u8; 20], r: u8, m: usize)
    requires { m ≤ 19 }
    ensures { (k : ℕ) → k < m → slice_index w.new k ≡ bit_xor (slice_index w.old (k + 1)) (gf_mul r (slice_index w.old k)) }
{
    // By index: each is written from itself and from the next.
    for k in 0..m {
        w[k] = w[k + 1] ^ mul(r, w[k]);
    }
}

// The magnitude at x: the other roots are taken out of the syndromes, and what is left is divided by the product of x + r over them.
pub(crate) fn magnitude(s: &[u8; 20], roots: &[u8], x: u8) -> u8
    requires { length roots.now ≤ 10 }
    ensures { to_byte result ≡ magnitude_at (bytes roots.now) (syndrome s.now) (to_byte x) }
{
    let mut w = *s;
    let mut product = 1;
    for (m, r) in roots.iter().enumerate() {
        if *r != x {
            take_out(&mut w, *r, roots.len() - m);
            product = mul(product, x ^ *r);
        }
    }
    mul(w[0], inverted(product))
}
