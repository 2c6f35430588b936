// The interleaved bytes of recorded rows, compared with recorded ones, both ways.
use delay::{Delay, Direction};
use refusal::Refusal;
use vectors::Tally;

// By how many bytes the interleaver and its inverse together delay.
pub(crate) const BOTH_WAYS: usize = 10608;

// Passes bytes through television's delay memory of 52 branches and step 4, each replaced by the one that leaves for it.
pub(crate) fn pass(bytes: &mut [u8], direction: Direction) -> Result<(), Refusal> {
    let mut memory = Delay::new(52, 4, direction)?;
    memory.pass(&mut [0; 5304], bytes)
}

// Compares bytes place by place, as far as both go.
pub(crate) fn compare(made: &[u8], recorded: &[u8]) -> Tally {
    let compared = made.len().min(recorded.len());
    let equal = made.iter().zip(recorded).filter(|(a, b)| a == b).count();
    Tally {
        equal,
        different: compared - equal,
    }
}
