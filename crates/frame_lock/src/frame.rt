// Where the frame lock stands.

// Waiting for a frame's mark, or locked: the place of the next packet in its frame of 624, and how many frames in a row came without their mark.
#[derive(Clone, Copy, PartialEq, Eq, Debug)]
pub enum Frame {
    Waiting,
    Locked { place: u16, misses: u8 },
}
