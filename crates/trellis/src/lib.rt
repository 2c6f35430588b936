// The twelve trellis encoders, the writer of data symbols, and the reader with its doubts.
#![tactic(auto)]

ghost use Rattle.trellis.specs.Places.{PlaceLaw};
ghost use Rattle.trellis.specs.Laws.{ReadingLaws};

mod encoding;
mod lanes;
mod reading;
mod writing;

pub use encoding::Encoder;
pub use reading::{Marked, Reader};
pub use writing::Trellis;

// The numberings of symbols, encoders and bytes are inverse to each other.
pub fn places_stand()
    ensures { PlaceLaw }
{}

// Reading gives back what was sent, for each byte whose symbols came as sent.
pub fn reading_stands()
    ensures { ReadingLaws }
{}

#[cfg(test)]
mod tests {
    use super::*;
    use refusal::Refusal;
    use std::test::Fail;

    // 0xC0 in a new encoder gives +5, +3, +1, +3, and two lists of outside values.
    #[test]
    fn writes(rt: HostRuntime) -> Result<(), Fail> {
        let mut quad = [0; 828];
        let mut out = [0; 828];
        quad[0] = 0xC0;
        quad[1] = 0x55;
        quad[13] = 0xAA;
        quad[25] = 0x1B;
        quad[37] = 0xE4;
        Trellis::new().write(&quad, 0, &mut out)?;
        let first = [5, 3, 1, 3, 1, 3, 1, 3];
        for (group, symbol) in out.chunks_exact(12).zip(&first) {
            assert_eq!(rt; group[0], *symbol);
        }
        let second = [-3, -1, -1, -3, 1, -7, 1, -7, -7, -3, 3, -3, 5, -5, -3, -7];
        for (group, symbol) in out.chunks_exact(12).zip(&second) {
            assert_eq!(rt; group[1], *symbol);
        }
        Ok(())
    }

    // Symbol 828 is sent by encoder 4 and carries bits 5 and 4 of byte 208.
    #[test]
    fn turns(rt: HostRuntime) -> Result<(), Fail> {
        let mut quad = [0; 828];
        let mut out = [0; 828];
        quad[208] = 0x30;
        let mut trellis = Trellis::new();
        trellis.write(&quad, 0, &mut out)?;
        assert_eq!(rt; out[820], -7);
        trellis.write(&quad, 1, &mut out)?;
        assert_eq!(rt; out[0], 5);
        assert_eq!(rt; out[1], -7);
        Ok(())
    }

    // With the fourth symbol of 0xC0 negated 0xC3 is read, and 0x80 for the 0x00 that follows.
    #[test]
    fn reads_damage(rt: HostRuntime) -> Result<(), Fail> {
        let mut sent = [0; 828];
        let mut symbols = [0; 828];
        let mut quad = [Marked::default(); 828];
        sent[0] = 0xC0;
        Trellis::new().write(&sent, 0, &mut symbols)?;
        assert_eq!(rt; symbols[36], 3);
        symbols[36] = -3;
        Reader::new().read(&symbols, 0, &mut quad)?;
        assert_eq!(rt; quad[0].byte, 0xC3);
        assert_eq!(rt; quad[12].byte, 0x80);
        assert_eq!(rt; quad[24].byte, 0);
        Ok(())
    }

    // Outside values: the levels −1, +1, −5, +5, +7, −3, −5, −5 are read as 0x6B, and 0x70 which is marked.
    #[test]
    fn reads_marks(rt: HostRuntime) -> Result<(), Fail> {
        let mut symbols = [-7; 828];
        let mut quad = [Marked::default(); 828];
        symbols[1] = -1;
        symbols[13] = 1;
        symbols[25] = -5;
        symbols[37] = 5;
        symbols[49] = 7;
        symbols[61] = -3;
        symbols[73] = -5;
        symbols[85] = -5;
        Reader::new().read(&symbols, 0, &mut quad)?;
        assert_eq!(rt; quad[1].byte, 0x6B);
        assert_eq!(rt; quad[1].marked, false);
        assert_eq!(rt; quad[13].byte, 0x70);
        assert_eq!(rt; quad[13].marked, true);
        Ok(())
    }

    // A short memory and a number that is no level are refused.
    #[test]
    fn refuses(rt: HostRuntime) {
        let mut quad = [Marked::default(); 828];
        assert_eq!(rt;
            Reader::new().read(&[0; 827], 0, &mut quad),
            Err(Refusal::WrongLength)
        );
        assert_eq!(rt;
            Reader::new().read(&[0; 828], 0, &mut quad),
            Err(Refusal::NotALevel)
        );
        assert_eq!(rt;
            Trellis::new().write(&[0; 828], 0, &mut [0; 832]),
            Err(Refusal::WrongLength)
        );
    }
}
