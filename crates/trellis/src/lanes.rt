// The symbols of one encoder in one data segment, and how an encoder or a memory takes them in turn.
ghost use Rattle.std.specs.Prelude.{◌≡◌, ℕ, ◌+◌, ◌-◌, ◌%◌, ◌<◌, ◌≤◌};
ghost use Rattle.trellis.specs.Writer.{lane_byte};
ghost use Rattle.trellis.specs.Steps.{StepLaws};

// The symbols of one encoder in one data segment: one place in each of the segment's 69 groups of twelve.
#[derive(Clone, Copy)]
pub struct Lane {
    // The quad's group of twelve with which the segment begins: 0, 69, 138 or 207.
    pub first: usize,
    // The place of the lane's symbols in each group.
    pub place: usize,
    ghost first_in: { first ≤ 207 },
    ghost place_in: { place < 12 },
}

impl Lane {
    // The byte of the quad whose bits the lane carries in a group of the quad.
    pub(crate) fn byte(self, group: usize) -> usize
        requires { group < 276 }
        ensures at { result ≡ lane_byte self.first self.place group }
        ensures inside { result < 828 }
    {
        let row = 12 * (group / 4);
        if 4 * (group / 4) >= self.first {
            row + self.place
        } else if self.place < 8 {
            row + self.place + 4
        } else {
            row + self.place - 8
        }
    }

    // How many of the lane's symbols end a byte that began before the segment.
    fn head(self) -> usize
        ensures { result ≡ (4 - self.first % 4) % 4 }
    {
        (4 - self.first % 4) % 4
    }
}

// An encoder or a memory that takes a lane's symbols in turn, from a source to a target.
// The three stay apart: all lanes share the source and write the one target, which a struct of them would have to lend again for each lane.
pub(crate) trait Coder<S, T> {
    // What it leaves of itself and the target from one symbol's number to another's.
    ghost goes: { S → ℕ → ℕ → ℕ → ℕ → Self → T → Self → T → Type 0 };

    // Takes symbol g.
    fn symbol(&mut self, source: &S, lane: Lane, g: usize, target: &mut T)
        requires { g < 69 }
        ensures { goes source.now lane.first lane.place g (g + 1) self.old target.old self.new target.new };

    // Takes symbol g and the three after it, which carry a whole byte.
    fn byte(&mut self, source: &S, lane: Lane, g: usize, target: &mut T)
        requires inside { g ≤ 65 }
        requires whole { (lane.first + g) % 4 ≡ 0 }
        ensures { goes source.now lane.first lane.place g (g + 4) self.old target.old self.new target.new };

    ghost laws: { StepLaws goes };
}

// Takes the symbols from one number to another one by one.
fn walk_singly<S, T, C: Coder<S, T>>(
    coder: &mut C,
    source: &S,
    lane: Lane,
    from: usize,
    to: usize,
    target: &mut T,
)
    requires order { from ≤ to }
    requires inside { to ≤ 69 }
    ensures { C.goes source.now lane.first lane.place from to coder.old target.old coder.new target.new }
{
    for g in from..to {
        coder.symbol(source, lane, g, target);
    }
}

// Takes a lane's 69 symbols: those that end a byte begun before, whole bytes, and those that begin another.
// The four symbols of a whole byte are taken at once, which is faster by half.
pub(crate) fn walk<S, T, C: Coder<S, T>>(coder: &mut C, source: &S, lane: Lane, target: &mut T)
    ensures { C.goes source.now lane.first lane.place 0 69 coder.old target.old coder.new target.new }
{
    let head = lane.head();
    let bytes = (69 - head) / 4;
    walk_singly(coder, source, lane, 0, head, target);
    for k in 0..bytes {
        coder.byte(source, lane, head + 4 * k, target);
    }
    walk_singly(coder, source, lane, head + 4 * bytes, 69, target);
}
