// The sender's own state. Its memories are lent at each call.
ghost use Rattle.std.specs.Prelude.{◌≡◌, true};
ghost use Rattle.delay.specs.Sizes.{interleaves};

use delay::Delay;
use frame_lock::FrameLock;
use trellis::Trellis;

// The frame lock, the interleaver's branches, the twelve encoders, the sync data of the next field sync, and how many packets were taken.
#[derive(Drop)]
pub struct Sender {
    lock: FrameLock,
    delay: Delay,
    trellis: Trellis,
    sync: [u8; 15],
    taken: u64,
    ghost branches: { delay.shape.branches ≡ 52 },
    ghost step: { delay.shape.step ≡ 4 },
    ghost direction: { interleaves delay.shape.direction ≡ true },
}
