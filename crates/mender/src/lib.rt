// Mending a row of 21 to 255 bytes, of which the last 20 are parity bytes and at most ten are wrong.
#![tactic(auto)]

mod locator;
mod magnitude;
mod roots;
mod syndromes;

ghost use Rattle.std.specs.Prelude.{◌≡◌, ◌<◌, ◌≤◌, length, MatchResult};
ghost use Rattle.correction.specs.Near.{NearLaws};
ghost use Rattle.correction.specs.Polynomials.{entry as syndrome, polynomial, correction_at, corrected, Values};
ghost use Rattle.mender.specs.Mended.{Mended, accepted, Searched};
ghost use Rattle.reed_solomon.specs.Complete.{complete_answer};
ghost use Rattle.rows.proofs.Values.{bytes};
ghost use Rattle.rows.specs.Code.{differing};
ghost use Rattle.rows.specs.Parity.{remainder};

use galois::power;
use locator::Locator;
use magnitude::magnitude;
use reed_solomon::{blank, is_code, remainder_of};
use refusal::Refusal;
use roots::Roots;
use syndromes::syndromes;

// In how many bytes a mended row may be wrong.
const MOST: usize = 10;

// What was found of a row.
#[derive(Clone, Copy, PartialEq, Eq, Debug)]
pub enum Mending {
    // It is a code row.
    Clean,
    // It was wrong in this many bytes, from one to ten, and is now a code row.
    Mended { wrong: u8 },
    // No code row differs from it in at most ten bytes.
    Spoiled,
}

// Adds to the row the magnitude at each root.
// It is compiled apart: inlined into the search, its loops run slower.
#[inline(never)]
fn correct(row: &mut [u8], s: &[u8; 20], locator: &Locator, roots: &Roots)
    requires at_most_255 { length row.old ≤ 255 }
    requires values { Values (polynomial locator.now.coefficients locator.now.degree) (length row.old) roots.now.values }
    ensures { bytes row.new ≡ corrected (correction_at (polynomial locator.now.coefficients locator.now.degree) (bytes roots.now.at.items) (syndrome s.now)) (bytes row.old) }
{
    let n = row.len();
    // The row by index: what is written through a zip of iter_mut is not known to the check.
    for (i, value) in roots.values[..n].iter().enumerate() {
        if *value == 0 {
            row[i] ^= magnitude(s, roots.at.as_slice(), power((n - 1 - i) as u8));
        }
    }
}

// In how many bytes two rows differ.
fn distance(a: &[u8], b: &[u8]) -> usize
    ensures { result ≡ differing a.now b.now }
{
    a.iter().zip(b).filter(|(x, y)| x != y).count()
}

// Makes the candidate the only row that can be near the row; in how many bytes it differs, where it is a code row and near.
fn search(row: &[u8], candidate: &mut [u8], left: &[u8; 20]) -> Option<u8>
    requires same_size { length candidate.old ≡ length row.now }
    requires parity { 20 < length row.now }
    requires at_most_255 { length row.now ≤ 255 }
    requires left { left.now ≡ remainder 20 row.now }
    ensures { Searched 20 row.now candidate.new result }
{
    let s = syndromes(left);
    let locator = locator::find(&s);
    let roots = roots::find(&locator, row.len());
    candidate.copy_from_slice(row);
    correct(candidate, &s, &locator, &roots);
    let wrong = distance(row, candidate);
    if wrong <= MOST && is_code(candidate) {
        Some(wrong as u8)
    } else {
        None
    }
}

// Makes the row the code row that differs from it in at most ten bytes, and tells in how many; a spoiled row stays.
// A row that has not from 21 to 255 bytes is refused and stays.
pub fn mend(row: &mut [u8]) -> Result<Mending, Refusal>
    ensures answer { accepted result ≡ complete_answer 20 (length row.old) }
    ensures after { MatchResult result (λ m. Mended 20 row.old row.new m) (λ _. row.new ≡ row.old) }
{
    let left = remainder_of(row)?;
    if blank(&left) {
        return Ok(Mending::Clean);
    }
    let n = row.len();
    // Memory for the longest row: there is no heap.
    let mut space = [0u8; 255];
    let candidate = &mut space[..n];
    match search(row, candidate, &left) {
        Some(wrong) => {
            row.copy_from_slice(candidate);
            Ok(Mending::Mended { wrong })
        }
        None => Ok(Mending::Spoiled),
    }
}

// For every number of parity bytes p: code rows of one length up to 255 that differ in at most p bytes are equal, and at most one is near a row, with marked bytes and without.
pub fn laws_stand()
    ensures { NearLaws 255 }
{}

#[cfg(test)]
mod tests {
    use super::{Mending, mend};
    use reed_solomon::complete;
    use refusal::Refusal;

    // A code row of 30 bytes.
    fn code_row() -> [u8; 30] {
        let mut row = [7u8; 30];
        let _ = complete(&mut row);
        row
    }

    #[test]
    fn a_code_row_is_clean(rt: HostRuntime) {
        let mut row = code_row();
        assert_eq!(rt; mend(&mut row), Ok(Mending::Clean));
        assert_eq!(rt; row, code_row());
    }

    #[test]
    fn one_wrong_byte_is_mended(rt: HostRuntime) {
        let mut row = code_row();
        row[3] ^= 0x55;
        assert_eq!(rt; mend(&mut row), Ok(Mending::Mended { wrong: 1 }));
        assert_eq!(rt; row, code_row());
    }

    // The row of zeros is a code row; this one is wrong in eleven bytes.
    #[test]
    fn eleven_wrong_bytes_stay(rt: HostRuntime) {
        let mut row = [
            1u8, 2, 3, 4, 5, 6, 7, 8, 9, 10, 11, 0, 0, 0, 0, 0, 0, 0, 0, 0, 0, 0, 0, 0, 0, 0, 0, 0,
            0, 0,
        ];
        let received = row;
        assert_eq!(rt; mend(&mut row), Ok(Mending::Spoiled));
        assert_eq!(rt; row, received);
    }

    #[test]
    fn a_row_of_20_is_refused(rt: HostRuntime) {
        let mut row = [7u8; 20];
        assert_eq!(rt; mend(&mut row), Err(Refusal::WrongLength));
        assert_eq!(rt; row, [7u8; 20]);
    }
}
