// The calls of the delay memory.
ghost use Rattle.std.specs.Prelude.{◌≡◌, length, is_ok, MatchResult, ◌==◌};
ghost use Rattle.refusal.specs.declared.Refusal.TheVariants.{WrongLength};
ghost use Rattle.delay.specs.Branches.{cells_of};
ghost use Rattle.delay.specs.State.{Sized, Fresh, Made, Cleared, Pushed, Passed, length_answer};

use super::Delay;
use crate::branches::{Direction, Shape, Turn};
use crate::ring::{Branching, clear, pass, push};
use refusal::Refusal;

// The work of `push`, `pass` and `clear` is the ring's. They stand on both memories, since callers know them by these names and promises.
impl Delay {
    // The cells that the memory needs.
    pub fn len(&self) -> usize
        ensures { result ≡ cells_of self.now.shape }
    {
        self.shape.cells()
    }

    // Takes one element in, and gives the one that leaves for it.
    pub fn push<T: Copy>(&mut self, cells: &mut [T], x: T) -> Result<T, Refusal>
        ensures answer { is_ok result ≡ (length cells.old == cells_of self.old.shape) }
        ensures after { MatchResult result
            (λ y. Pushed self.old cells.old x y self.new cells.new)
            (λ e. (e ≡ WrongLength) × (self.new ≡ self.old) × (cells.new ≡ cells.old)) }
    {
        push(self.shape, &mut self.turn, &mut self.slots, cells, x)
    }

    // Takes the elements of `part` in, one after the other, and puts in place of each the one that leaves for it.
    pub fn pass<T: Copy>(&mut self, cells: &mut [T], part: &mut [T]) -> Result<(), Refusal>
        ensures answer { result ≡ length_answer (length cells.old) (cells_of self.old.shape) }
        ensures after { MatchResult result
            (λ _. Passed self.old cells.old part.old part.new self.new cells.new)
            (λ _. (self.new ≡ self.old) × (cells.new ≡ cells.old) × (part.new ≡ part.old)) }
    {
        pass(self.shape, &mut self.turn, &mut self.slots, cells, part)
    }

    // Starts anew with `zero` in every cell.
    pub fn clear<T: Copy>(&mut self, cells: &mut [T], zero: T) -> Result<(), Refusal>
        ensures answer { result ≡ length_answer (length cells.old) (cells_of self.old.shape) }
        ensures after { MatchResult result
            (λ _. Cleared zero self.old cells.old self.new cells.new)
            (λ _. (self.new ≡ self.old) × (cells.new ≡ cells.old)) }
    {
        clear(self.shape, cells, zero)?;
        *self = Delay::fresh(self.shape);
        Ok(())
    }

    // A memory that has taken nothing in, for so many branches and so many further cells in the next one.
    pub fn new(branches: usize, step: usize, direction: Direction) -> Result<Delay, Refusal>
        ensures { MatchResult result
            (λ d. Sized branches step × Made branches step direction d)
            (λ e. (Sized branches step → ⊥) × (e ≡ WrongLength)) }
    {
        match (branches, step) {
            (1..=255, 1..=255) => Ok(Delay::fresh(Shape {
                branches,
                step,
                direction,
            })),
            _ => Err(Refusal::WrongLength),
        }
    }

    // A memory of this shape that has taken nothing in.
    fn fresh(shape: Shape) -> Delay
        ensures shape { result.shape ≡ shape }
        ensures fresh { Fresh result }
    {
        Delay {
            shape,
            turn: Turn::START,
            slots: [0; 255],
        }
    }
}
