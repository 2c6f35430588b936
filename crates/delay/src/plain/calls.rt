// The calls of the plain delay.
ghost use Rattle.std.specs.Prelude.{◌≡◌, ◌<◌, [], ◌∷◌, length, is_ok, MatchResult, ◌==◌};
ghost use Rattle.refusal.specs.declared.Refusal.TheVariants.{WrongLength};
ghost use Rattle.delay.specs.State.{PlainCleared, PlainPushed, PlainPassed, length_answer};
ghost use Rattle.delay.specs.Ring.{chain_layout};

use super::{Chain, PlainDelay};
use crate::ring::{Branching, clear, following, pass, push};
use refusal::Refusal;

impl Branching for Chain {
    // The one branch's slot.
    type Turn = usize;

    type Slots = ();

    ghost layout = { λ s. chain_layout s.size };

    ghost placed = { λ s slot. slot < s.size };

    ghost place = { λ slot nothing. record { branch = 0; slots = slot ∷ [] } };

    fn cells(self) -> usize {
        self.size
    }

    fn visit(self, turn: &mut usize, _slots: &mut ()) -> Option<usize> {
        let slot = *turn;
        *turn = following(slot, self.size);
        Some(slot)
    }
}

// The work of `push`, `pass` and `clear` is the ring's. They stand on both memories, since callers know them by these names and promises.
impl PlainDelay {
    // A delay by so many elements that has taken nothing in.
    pub fn new(size: usize) -> Result<PlainDelay, Refusal>
        ensures { MatchResult result
            (λ d. (d.size ≡ size) × (d.slot ≡ 0))
            (λ e. (size ≡ 0) × (e ≡ WrongLength)) }
    {
        if size == 0 {
            return Err(Refusal::WrongLength);
        }
        Ok(PlainDelay { size, slot: 0 })
    }

    // The cells that the delay needs.
    pub fn len(&self) -> usize
        ensures { result ≡ self.now.size }
    {
        self.size
    }

    // Starts anew with `zero` in every cell.
    pub fn clear<T: Copy>(&mut self, cells: &mut [T], zero: T) -> Result<(), Refusal>
        ensures answer { result ≡ length_answer (length cells.old) self.old.size }
        ensures after { MatchResult result
            (λ _. PlainCleared zero self.old cells.old self.new cells.new)
            (λ _. (self.new ≡ self.old) × (cells.new ≡ cells.old)) }
    {
        clear(Chain { size: self.size }, cells, zero)?;
        self.slot = 0;
        Ok(())
    }

    // Takes one element in, and gives the one that leaves for it.
    pub fn push<T: Copy>(&mut self, cells: &mut [T], x: T) -> Result<T, Refusal>
        ensures answer { is_ok result ≡ (length cells.old == self.old.size) }
        ensures after { MatchResult result
            (λ y. PlainPushed self.old cells.old x y self.new cells.new)
            (λ e. (e ≡ WrongLength) × (self.new ≡ self.old) × (cells.new ≡ cells.old)) }
    {
        let chain = Chain { size: self.size };
        push(chain, &mut self.slot, &mut (), cells, x)
    }

    // Takes the elements of `part` in, one after the other, and puts in place of each the one that leaves for it.
    pub fn pass<T: Copy>(&mut self, cells: &mut [T], part: &mut [T]) -> Result<(), Refusal>
        ensures answer { result ≡ length_answer (length cells.old) self.old.size }
        ensures after { MatchResult result
            (λ _. PlainPassed self.old cells.old part.old part.new self.new cells.new)
            (λ _. (self.new ≡ self.old) × (cells.new ≡ cells.old) × (part.new ≡ part.old)) }
    {
        let chain = Chain { size: self.size };
        pass(chain, &mut self.slot, &mut (), cells, part)
    }
}
