// The receiver's own state. Its memories are lent at each call.
ghost use Rattle.std.specs.Prelude.{◌≡◌, ◌<◌, ◌≤◌, false};
ghost use Rattle.delay.specs.Sizes.{interleaves};

use crate::report::PacketReport;
use delay::{Delay, PlainDelay};
use trellis::Reader;

// The reader of symbols, the deinterleaver's branches, the further delay, the place of the next quad in its field of 78, how many takes were accepted (counted up to 14), and the reports of the packets handed out last.
#[derive(Drop)]
pub struct Receiver {
    reader: Reader,
    delay: Delay,
    extra: PlainDelay,
    quad: u8,
    takes: u8,
    reports: [PacketReport; 4],
    ghost branches: { delay.shape.branches ≡ 52 },
    ghost step: { delay.shape.step ≡ 4 },
    ghost direction: { interleaves delay.shape.direction ≡ false },
    ghost size: { extra.size ≡ 156 },
    ghost inside: { quad < 78 },
    ghost counted: { takes ≤ 14 },
}
