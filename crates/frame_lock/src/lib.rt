// The frame lock: which packets are taken, at which place of the frame, by the marks among their first bytes.
#![tactic(auto)]

ghost use Rattle.frame_lock.specs.Laws.{LockLaws};

pub mod frame;
pub mod lock;

pub use frame::Frame;
pub use lock::FrameLock;

// Laws of the lock over several packets: a stray mark clears no miss, and a frame's own mark clears all.
pub fn laws_stand()
    ensures { LockLaws }
{}
