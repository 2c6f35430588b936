// Why a call of the library refuses, and the number that each reason has.
#![tactic(auto)]

ghost use Rattle.std.specs.Prelude.{◌≡◌};
ghost use Rattle.refusal.specs.Numbers.{refusal_number};

// What a refused call found. A refused call alters nothing unless its contract says so.
#[derive(Clone, Copy, PartialEq, Eq, Debug)]
pub enum Refusal {
    // A memory or an input has another length than the call needs.
    WrongLength,
    // A packet's first byte is neither 0x47 nor 0xB8.
    NoSyncByte,
    // The frame lock waits for a frame's mark.
    NoFrame,
    // The line has not as many numbers left as the segments to put; `next` is its next one.
    NumbersUsedUp { next: u64, needed: usize },
    // A symbol is none of the eight levels.
    NotALevel,
    // The line has room for fewer segments than are to be put.
    TooLittleRoom { needed: usize, found: usize },
    // Fewer segments wait on the line than are to be taken.
    TooFewWaiting { needed: usize, found: usize },
    // The last four bits of the sync data are not zero.
    SyncTailNotZero,
}

impl Refusal {
    // The number by which this refusal is known: integrators are told each refusal by its number, beside the enum.
    pub fn number(self) -> u8
        ensures { result ≡ refusal_number self }
    {
        match self {
            Refusal::WrongLength => 1,
            Refusal::NoSyncByte => 2,
            Refusal::NoFrame => 3,
            Refusal::NumbersUsedUp { .. } => 6,
            Refusal::NotALevel => 7,
            Refusal::TooLittleRoom { .. } => 8,
            Refusal::TooFewWaiting { .. } => 9,
            Refusal::SyncTailNotZero => 11,
        }
    }
}

#[cfg(test)]
mod tests {
    use super::*;

    #[test]
    fn wrong_length_is_number_one(rt: HostRuntime) {
        assert_eq!(rt; Refusal::WrongLength.number(), 1);
    }
}
