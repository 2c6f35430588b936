// What division of a whole row by the generator leaves.
ghost use Rattle.std.specs.Prelude.{◌≡◌, ◌≤◌, length, replicate, Decides};
ghost use Rattle.rows.specs.Parity.{remainder};

use crate::register::divided;
use std::array;

// The remainder of the row: it has the row's values at the first 20 powers of 2.
// It is compiled apart: inlined where a refusal may stand in its place, its bytes are put together one by one.
#[inline(never)]
pub(crate) fn remainder(row: &[u8]) -> [u8; 20]
    requires { 20 ≤ length row.now }
    ensures { result ≡ remainder 20 row.now }
{
    let (front, last) = row.split_at(row.len() - 20);
    let parity = divided(front).bytes();
    array::from_fn(|k| parity[k] ^ last[k])
}

// Whether all 20 bytes are 0.
pub fn blank(bytes: &[u8; 20]) -> bool
    ensures { Decides result (bytes.now ≡ replicate 20 0) }
{
    bytes.iter().all(|byte| *byte == 0)
}
