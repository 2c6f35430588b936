// Data segments: four sync symbols, and behind them the symbols that the twelve encoders send.
#![tactic(auto)]

ghost use Rattle.std.specs.Prelude.{◌≡◌, length, MatchResult};
ghost use Rattle.data_segments.specs.Written.{write_answer, SegmentWritten};

use refusal::Refusal;
use segments::write_data_sync;
use trellis::Trellis;

// Writes the next data segment of 832 symbols from its quad's 828 interleaved bytes; `segment` is its number since the start, of which the remainder mod 12 counts.
// Another length of either is refused, and the encoders and the memory stay.
pub fn write_data_segment(
    trellis: &mut Trellis,
    quad: &[u8],
    segment: usize,
    out: &mut [i8],
) -> Result<(), Refusal>
    ensures answer { result ≡ write_answer (length quad.now) (length out.old) }
    ensures after { MatchResult result (λ _. SegmentWritten quad.now segment trellis.old out.new trellis.new) (λ _. (trellis.new ≡ trellis.old) × (out.new ≡ out.old)) }
{
    if quad.len() != 828 {
        return Err(Refusal::WrongLength);
    }
    write_data_sync(out)?;
    let (_, symbols) = out.split_at_mut(4);
    trellis.write(quad, segment, symbols)
}

#[cfg(test)]
mod tests {
    use super::*;
    use std::test::Fail;

    #[test]
    fn symbols_stand_behind_the_sync(rt: HostRuntime) -> Result<(), Fail> {
        let mut quad = [0; 828];
        let mut out = [0; 832];
        quad[0] = 0xC0;
        write_data_segment(&mut Trellis::new(), &quad, 0, &mut out)?;
        assert_eq!(rt; out[0], 5);
        assert_eq!(rt; out[1], -5);
        assert_eq!(rt; out[3], 5);
        assert_eq!(rt; out[4], 5);
        assert_eq!(rt; out[5], -7);
        Ok(())
    }

    #[test]
    fn other_lengths_are_refused(rt: HostRuntime) {
        let refused = write_data_segment(&mut Trellis::new(), &[0; 828], 0, &mut [0; 828]);
        assert_eq!(rt; refused, Err(Refusal::WrongLength));
    }
}
