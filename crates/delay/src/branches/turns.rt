// The turns of the branches.
ghost use Rattle.std.specs.Prelude.{◌≡◌, ◌+◌, ◌%◌, ◌<◌};
ghost use Rattle.delay.specs.Branches.{firsts, sizes, layout_of};

use super::{Direction, Shape, Turn};
use crate::ring::{Branching, following};

impl Shape {
    // The cells of a branch.
    fn size(self, branch: usize) -> usize
        requires { branch < self.branches }
        ensures { result ≡ sizes self branch }
    {
        match self.direction {
            Direction::Interleave => self.step * branch,
            Direction::Deinterleave => self.step * (self.branches - 1 - branch),
        }
    }

    // The turn after a turn.
    fn next(self, turn: Turn) -> Turn
        requires inside { turn.branch < self.branches }
        requires placed { turn.first ≡ firsts self turn.branch }
        ensures branch { result.branch ≡ (turn.branch + 1) % self.branches }
        ensures placed { result.first ≡ firsts self result.branch }
    {
        let branch = turn.branch + 1;
        if branch == self.branches {
            return Turn::START;
        }
        Turn {
            branch,
            first: turn.first + self.size(turn.branch),
        }
    }
}

impl Branching for Shape {
    type Turn = Turn;

    type Slots = [u16; 255];

    ghost layout = { layout_of };

    ghost placed = { λ s t. t.first ≡ firsts s t.branch };

    ghost place = { λ t slots. record { branch = t.branch; slots = slots } };

    fn cells(self) -> usize {
        self.step * (self.branches * (self.branches - 1) / 2)
    }

    fn visit(self, turn: &mut Turn, slots: &mut [u16; 255]) -> Option<usize> {
        let Turn { branch, first } = *turn;
        *turn = self.next(*turn);
        let size = self.size(branch);
        if size == 0 {
            return None;
        }
        let slot = slots[branch] as usize;
        slots[branch] = following(slot, size) as u16;
        Some(first + slot)
    }
}
