// Rows of bytes with 20 parity bytes: completing a row, and asking whether a row is a code row.
#![tactic(auto)]

mod multiples;
mod register;
mod remainders;

ghost use Rattle.reed_solomon.specs.Complete.{complete_answer, front, OnlyCodeRow, Codeword, remainder_answer};
ghost use Rattle.rows.specs.Code.{CodeRow, OnlyCompletion};
ghost use Rattle.rows.specs.Parity.{coded};
ghost use Rattle.std.specs.Prelude.{◌≡◌, length, Decides, MatchResult, OnOk};

use refusal::Refusal;
use register::divided;
pub use remainders::blank;
use remainders::remainder;

// That the row has from 21 to 255 bytes.
fn check_length(row: &[u8]) -> Result<(), Refusal>
    ensures { result ≡ complete_answer 20 (length row.now) }
{
    match row.len() {
        21..=255 => Ok(()),
        _ => Err(Refusal::WrongLength),
    }
}

// Writes the last 20 bytes so that the row, of 21 to 255 bytes, is a code row; the bytes before them stay.
// A row of another length is refused and stays.
pub fn complete(row: &mut [u8]) -> Result<(), Refusal>
    ensures answer { result ≡ complete_answer 20 (length row.old) }
    ensures after { MatchResult result (λ _. row.new ≡ coded 20 (front 20 row.old)) (λ _. row.new ≡ row.old) }
    ensures code { OnOk result (CodeRow 20 row.new) }
    ensures only { OnOk result (OnlyCodeRow 20 row.new) }
{
    check_length(row)?;
    let m = row.len() - 20;
    let (front, parity) = row.split_at_mut(m);
    parity.copy_from_slice(&divided(front).bytes());
    Ok(())
}

// Whether the row has from 21 to 255 bytes and is a code row.
pub fn is_code(row: &[u8]) -> bool
    ensures { Decides result (Codeword 20 row.now) }
{
    match remainder_of(row) {
        Ok(left) => blank(&left),
        Err(_) => false,
    }
}

// What division of the row, of 21 to 255 bytes, by the generator leaves: it has the row's values at the first 20 powers of 2.
// A row of another length is refused.
pub fn remainder_of(row: &[u8]) -> Result<[u8; 20], Refusal>
    ensures { result ≡ remainder_answer 20 row.now }
{
    check_length(row)?;
    Ok(remainder(row))
}

// For every number of parity bytes p: two code rows of one length up to 255 that agree before the last p bytes are equal.
pub fn only_completion_stands()
    ensures { OnlyCompletion 255 }
{}

#[cfg(test)]
mod tests {
    use super::{complete, is_code};
    use refusal::Refusal;
    use std::test::Fail;

    // The parity bytes of the single byte 0x47.
    #[test]
    fn one_byte(rt: HostRuntime) -> Result<(), Fail> {
        let mut row = [0u8; 21];
        row[0] = 0x47;
        complete(&mut row)?;
        assert_eq!(rt;
            &row[..11],
            [
                0x47, 0x26, 0x69, 0x3c, 0x46, 0xd2, 0xd1, 0x8f, 0x37, 0x1c, 0xab,
            ]
            .as_slice()
        );
        assert_eq!(rt;
            &row[11..],
            [0x56, 0x09, 0xe7, 0x8b, 0x39, 0xbf, 0x59, 0x59, 0x6e, 0xa5].as_slice()
        );
        assert!(rt; is_code(&row));
        Ok(())
    }

    // Rows of 20 and of 256 bytes are refused and stay.
    #[test]
    fn wrong_lengths(rt: HostRuntime) {
        let mut short = [7u8; 20];
        assert_eq!(rt; complete(&mut short), Err(Refusal::WrongLength));
        assert_eq!(rt; short, [7u8; 20]);
        let mut long = [7u8; 256];
        assert_eq!(rt; complete(&mut long), Err(Refusal::WrongLength));
        assert_eq!(rt; long, [7u8; 256]);
    }
}
