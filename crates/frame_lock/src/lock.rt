// The lock's state and its calls.
ghost use Rattle.std.specs.Prelude.{◌≡◌, ◌<◌, true};
ghost use Rattle.frame_lock.specs.Table.{inside_frame, place_after, place_of, misses_of, next_frame, next_strays, lock_answer};

use crate::frame::Frame;
use refusal::Refusal;

// The first byte of a packet.
const SYNC: u8 = 0x47;

// The first byte of a packet that is marked as its frame's first.
const MARK: u8 = 0xB8;

// Packets of a frame.
const FRAME: u16 = 624;

// The state of the lock, and how many marks came elsewhere than at a frame's first packet.
#[derive(Clone, Copy)]
pub struct FrameLock {
    frame: Frame,
    strays: u32,
    ghost inside: { inside_frame frame ≡ true },
}

// The place after a place of the frame.
fn following(place: u16) -> u16
    requires { place < 624 }
    ensures value { result ≡ place_after place }
    ensures inside { result < 624 }
{
    (place + 1) % FRAME
}

impl FrameLock {
    // A lock that waits, with no strays.
    pub fn new() -> FrameLock
        ensures waiting { result.frame ≡ Frame.Waiting }
        ensures no_strays { result.strays ≡ 0 }
    {
        FrameLock {
            frame: Frame::Waiting,
            strays: 0,
        }
    }

    // Takes a packet by its first byte, and answers its place in the frame, or refuses it.
    pub fn offer(&mut self, first: u8) -> Result<u16, Refusal>
        ensures answer { result ≡ lock_answer self.old.frame first }
        ensures frame { self.new.frame ≡ next_frame self.old.frame first }
        ensures strays { self.new.strays ≡ next_strays self.old.frame first self.old.strays }
    {
        match (self.frame, first) {
            (Frame::Waiting, SYNC) => Err(Refusal::NoFrame),
            (Frame::Waiting, MARK) | (Frame::Locked { place: 0, .. }, MARK) => {
                self.frame = Frame::Locked {
                    place: 1,
                    misses: 0,
                };
                Ok(0)
            }
            (Frame::Locked { place: 0, misses }, SYNC) if misses < 2 => {
                self.frame = Frame::Locked {
                    place: 1,
                    misses: misses + 1,
                };
                Ok(0)
            }
            (Frame::Locked { place: 0, .. }, SYNC) => {
                self.frame = Frame::Waiting;
                Err(Refusal::NoFrame)
            }
            (Frame::Locked { place, misses }, SYNC | MARK) => {
                self.frame = Frame::Locked {
                    place: following(place),
                    misses,
                };
                if first == MARK {
                    self.strays = self.strays.saturating_add(1);
                }
                Ok(place)
            }
            _ => Err(Refusal::NoSyncByte),
        }
    }

    // Where the lock stands.
    pub fn frame(&self) -> Frame
        ensures { result ≡ self.now.frame }
    {
        self.frame
    }

    // The place of the next packet in its frame: 0 while the lock waits.
    // A number and no Option: callers are promised it, and `frame` has the enum.
    pub fn place(&self) -> u16
        ensures { result ≡ place_of self.now.frame }
    {
        match self.frame {
            Frame::Waiting => 0,
            Frame::Locked { place, .. } => place,
        }
    }

    // How many frames in a row came without their mark: 0 while the lock waits.
    // A number and no Option: callers are promised it, and `frame` has the enum.
    pub fn misses(&self) -> u8
        ensures { result ≡ misses_of self.now.frame }
    {
        match self.frame {
            Frame::Waiting => 0,
            Frame::Locked { misses, .. } => misses,
        }
    }

    // How many marks came elsewhere than at a frame's first packet, counted up to 4,294,967,295.
    pub fn strays(&self) -> u32
        ensures { result ≡ self.now.strays }
    {
        self.strays
    }
}

#[cfg(test)]
mod tests {
    use super::*;
    use std::test::Fail;

    // Offers a frame's first packet and then its other 623.
    fn whole_frame(lock: &mut FrameLock, first: u8) -> Result<(), Refusal> {
        lock.offer(first)?;
        for _ in 1..624 {
            lock.offer(SYNC)?;
        }
        Ok(())
    }

    #[test]
    fn a_mark_clears_the_misses(rt: HostRuntime) -> Result<(), Fail> {
        let mut lock = FrameLock::new();
        assert_eq!(rt; lock.offer(SYNC), Err(Refusal::NoFrame));
        assert_eq!(rt; lock.offer(0), Err(Refusal::NoSyncByte));
        whole_frame(&mut lock, MARK)?;
        whole_frame(&mut lock, SYNC)?;
        assert_eq!(rt; lock.misses(), 1);
        whole_frame(&mut lock, SYNC)?;
        assert_eq!(rt; lock.misses(), 2);
        whole_frame(&mut lock, MARK)?;
        assert_eq!(rt; lock.misses(), 0);
        Ok(())
    }

    #[test]
    fn a_stray_clears_no_miss_and_the_third_miss_unlocks(rt: HostRuntime) -> Result<(), Fail> {
        let mut lock = FrameLock::new();
        whole_frame(&mut lock, MARK)?;
        whole_frame(&mut lock, SYNC)?;
        lock.offer(SYNC)?;
        assert_eq!(rt; lock.offer(MARK), Ok(1));
        assert_eq!(rt; lock.strays(), 1);
        assert_eq!(rt; lock.misses(), 2);
        for _ in 2..624 {
            lock.offer(SYNC)?;
        }
        assert_eq!(rt; lock.offer(SYNC), Err(Refusal::NoFrame));
        assert_eq!(rt; lock.frame(), Frame::Waiting);
        Ok(())
    }
}
