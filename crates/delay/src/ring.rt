// A ring of branches that take elements in turn: which cell each turn falls on, and the calls of every memory that is a ring.
ghost use Rattle.std.specs.Prelude.{◌≡◌, ◌+◌, ◌%◌, ◌<◌, ◌==◌, length, replicate, is_ok, MatchResult};
ghost use Rattle.refusal.specs.declared.Refusal.TheVariants.{WrongLength};
ghost use Rattle.delay.specs.Ring.{Layout, Place, Sound, Stands, Visited, Took, Ran};
ghost use Rattle.delay.specs.State.{length_answer};

use refusal::Refusal;
use std::mem;

// How a memory's cells are divided into branches, and which of them each turn falls on.
pub(crate) trait Branching: Copy {
    // Whose turn it is. Apart from the slots, so that `pass` has it in a local variable, which is faster.
    type Turn: Copy;

    // The slots of the branches.
    type Slots;

    // How the cells are divided.
    ghost layout: { Self → Layout };

    // That a turn is one of this layout.
    ghost placed: { Self → Self.Turn → Type 0 };

    // Where a turn and slots stand.
    ghost place: { Self.Turn → Self.Slots → Place };

    // The cells of all branches, which lie apart in them.
    fn cells(self) -> usize
        ensures cells { result ≡ (layout self).cells }
        ensures sound { Sound (layout self) };

    // Takes one turn: gives the cell that the element changes places with, and none where it leaves at once.
    fn visit(self, turn: &mut Self::Turn, slots: &mut Self::Slots) -> Option<usize>
        requires placed { placed self turn.old }
        requires stands { Stands (layout self) (place turn.old slots.old) }
        ensures placed { placed self turn.new }
        ensures visited { Visited (layout self) (place turn.old slots.old) result (place turn.new slots.new) };
}

// Refuses cells that are not as many as are needed.
fn check_length(cells: usize, needed: usize) -> Result<(), Refusal>
    ensures { result ≡ length_answer cells needed }
{
    if cells == needed {
        Ok(())
    } else {
        Err(Refusal::WrongLength)
    }
}

// Takes `x` in at its turn, and puts in its place the element that leaves for it.
// Here and below shape, turn, slots and cells stay apart, and so do the two facts about them: the contracts of `Delay` name its turn and its slots.
fn through<S: Branching, T: Copy>(
    shape: S,
    turn: &mut S::Turn,
    slots: &mut S::Slots,
    cells: &mut [T],
    x: &mut T,
)
    requires placed { S.placed shape turn.old }
    requires stands { Stands (S.layout shape) (S.place turn.old slots.old) }
    requires sound { Sound (S.layout shape) }
    requires whole { length cells.old ≡ (S.layout shape).cells }
    ensures placed { S.placed shape turn.new }
    ensures stands { Stands (S.layout shape) (S.place turn.new slots.new) }
    ensures took { Took (S.layout shape) (S.place turn.old slots.old) cells.old x.old x.new (S.place turn.new slots.new) cells.new }
{
    if let Some(cell) = shape.visit(turn, slots) {
        mem::swap(&mut cells[cell], x);
    }
}

// Takes one element in, and gives the one that leaves for it.
pub(crate) fn push<S: Branching, T: Copy>(
    shape: S,
    turn: &mut S::Turn,
    slots: &mut S::Slots,
    cells: &mut [T],
    x: T,
) -> Result<T, Refusal>
    requires placed { S.placed shape turn.old }
    requires stands { Stands (S.layout shape) (S.place turn.old slots.old) }
    ensures placed { S.placed shape turn.new }
    ensures stands { Stands (S.layout shape) (S.place turn.new slots.new) }
    ensures answer { is_ok result ≡ (length cells.old == (S.layout shape).cells) }
    ensures after { MatchResult result
        (λ y. Took (S.layout shape) (S.place turn.old slots.old) cells.old x y (S.place turn.new slots.new) cells.new)
        (λ e. (e ≡ WrongLength) × (turn.new ≡ turn.old) × (slots.new ≡ slots.old) × (cells.new ≡ cells.old)) }
{
    check_length(cells.len(), shape.cells())?;
    let mut y = x;
    through(shape, turn, slots, cells, &mut y);
    Ok(y)
}

// Takes the elements of `part` in, one after the other, and puts in place of each the one that leaves for it.
pub(crate) fn pass<S: Branching, T: Copy>(
    shape: S,
    turn: &mut S::Turn,
    slots: &mut S::Slots,
    cells: &mut [T],
    part: &mut [T],
) -> Result<(), Refusal>
    requires placed { S.placed shape turn.old }
    requires stands { Stands (S.layout shape) (S.place turn.old slots.old) }
    ensures placed { S.placed shape turn.new }
    ensures stands { Stands (S.layout shape) (S.place turn.new slots.new) }
    ensures answer { result ≡ length_answer (length cells.old) (S.layout shape).cells }
    ensures after { MatchResult result
        (λ _. Ran (S.layout shape) (S.place turn.old slots.old) cells.old part.old part.new (S.place turn.new slots.new) cells.new)
        (λ _. (turn.new ≡ turn.old) × (slots.new ≡ slots.old) × (cells.new ≡ cells.old) × (part.new ≡ part.old)) }
{
    check_length(cells.len(), shape.cells())?;
    let mut now = *turn;
    for x in part.iter_mut() {
        through(shape, &mut now, slots, cells, x);
    }
    *turn = now;
    Ok(())
}

// Puts `zero` into every cell.
pub(crate) fn clear<S: Branching, T: Copy>(
    shape: S,
    cells: &mut [T],
    zero: T,
) -> Result<(), Refusal>
    ensures answer { result ≡ length_answer (length cells.old) (S.layout shape).cells }
    ensures after { MatchResult result
        (λ _. cells.new ≡ replicate (length cells.old) zero)
        (λ _. cells.new ≡ cells.old) }
{
    check_length(cells.len(), shape.cells())?;
    // Not by `fill`: it clones, and nothing says that a clone of a `Copy` value is that value.
    for cell in cells.iter_mut() {
        *cell = zero;
    }
    Ok(())
}

// The next number of a cycle of `size`. By a test, since the remainder takes a division, which is longer than the rest of a turn.
pub(crate) fn following(n: usize, size: usize) -> usize
    requires { n < size }
    ensures { result ≡ (n + 1) % size }
{
    if n + 1 == size { 0 } else { n + 1 }
}
