// What a line of segments means, what every line does at each call, and how it refuses.
#![tactic(auto)]

ghost use Rattle.std.specs.Prelude.{◌≡◌, length, MatchResult};
ghost use Rattle.line.specs.State.{State, Sound, Arrived, Taken};
ghost use Rattle.line.specs.Refusals.{fault_number, found_here, under_a_layer};
ghost use Rattle.line.specs.Line.{put_answer, take_answer};
ghost use Rattle.line.specs.Laws.{LineLaws};

pub mod levels;
pub mod ring;

// Why a line refuses.
#[derive(Clone, Copy, PartialEq, Eq, Debug)]
pub enum LineFault {
    // The given memory is not 832 symbols long.
    WrongLength,
    // A symbol is none of the eight levels.
    NotLevel,
    // The numbers are used up.
    UsedUp,
    // As many segments wait as there is room.
    NoRoom,
    // No segment waits.
    NothingWaits,
}

impl LineFault {
    // The number by which this fault is known: integrators are told each refusal by its number, beside the enum.
    pub fn number(self) -> u8
        ensures { result ≡ fault_number self }
    {
        match self {
            LineFault::WrongLength => 1,
            LineFault::NoRoom => 4,
            LineFault::NothingWaits => 5,
            LineFault::UsedUp => 6,
            LineFault::NotLevel => 7,
        }
    }
}

// What a line tells where it refuses: why, the number of the next segment, and how many layers stand above the one that refuses, counted up to 255.
#[derive(Clone, Copy, PartialEq, Eq, Debug)]
pub struct LineRefusal {
    pub fault: LineFault,
    pub next: u64,
    pub depth: u8,
}

impl LineRefusal {
    // The refusal of the line that is called.
    pub fn here(fault: LineFault, next: u64) -> LineRefusal
        ensures { result ≡ found_here fault next }
    {
        LineRefusal {
            fault,
            next,
            depth: 0,
        }
    }

    // A lower line's refusal as the layer above it tells it: the layer finds lengths and levels itself, and all else is found one layer deeper.
    pub fn under_a_layer(self) -> LineRefusal
        ensures { result ≡ under_a_layer self }
    {
        match self.fault {
            LineFault::WrongLength | LineFault::NotLevel => self,
            _ => LineRefusal {
                depth: self.depth.saturating_add(1),
                ..self
            },
        }
    }
}

// The number by which a memory or a first number is refused, as integrators are told it.
const NO_LINE: u8 = 12;

// A memory handed back, since no line can be made of it and the first number.
#[derive(Drop)]
pub struct NoLine<M> {
    pub memory: M,
}

impl<M> NoLine<M> {
    // The number by which this refusal is known.
    pub fn number(&self) -> u8
        ensures { result ≡ 12 }
    {
        NO_LINE
    }
}

// A line of segments of 832 symbols: first put, first taken.
pub trait Line {
    // What the line means.
    ghost state: { Self → State };

    // Adds a segment behind the others.
    fn put(&mut self, segment: &[i8]) -> Result<(), LineRefusal>
        ensures answer { result ≡ put_answer (state self.old) segment.now }
        ensures after { MatchResult result (λ _. Arrived (state self.old) segment.now (state self.new)) (λ _. state self.new ≡ state self.old) };

    // Moves the oldest segment into the caller's memory.
    fn take(&mut self, out: &mut [i8]) -> Result<(), LineRefusal>
        ensures answer { result ≡ take_answer (state self.old) (length out.old) }
        ensures after { MatchResult result (λ _. Taken (state self.old) out.new (state self.new)) (λ _. (state self.new ≡ state self.old) × (out.new ≡ out.old)) };

    // How many segments wait.
    fn waiting(&self) -> usize
        ensures { result ≡ length (state self.now).waiting };

    // How many segments may wait.
    fn room(&self) -> usize
        ensures { result ≡ (state self.now).room };

    // The number of the next segment.
    fn number(&self) -> u64
        ensures { result ≡ (state self.now).number };

    // Whether the symbol at a place may be altered.
    fn scheduled(&self, place: u64) -> bool
        ensures { result ≡ (state self.now).scheduled place };

    // What holds of every line at all times.
    ghost sound: { (l : Self) → Sound (state l) };
}

// What follows from the contracts for every line: what is put is taken again, and the schedule never changes.
pub fn laws_stand()
    ensures { LineLaws }
{}
