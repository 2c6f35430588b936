// The slots of a memory of segments that are taken in turn.
ghost use Rattle.std.specs.Prelude.{◌^◌, ◌<◌, ◌≤◌};

pub mod calls;

// How many segments a line may count: 2⁴⁰.
pub const NUMBERS: u64 = 1_099_511_627_776;

// Which slots hold the waiting segments, and the number of the next segment.
#[derive(Drop)]
pub struct Ring {
    room: usize,
    head: usize,
    count: usize,
    number: u64,
    ghost least: { 1 ≤ room },
    ghost most: { room ≤ 64 },
    ghost inside: { head < room },
    ghost fits: { count ≤ room },
    ghost numbered: { number ≤ 2 ^ 40 },
}
