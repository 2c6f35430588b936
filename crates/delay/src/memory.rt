// The delay memory's own state: its branches and where each of them stands. Its cells are lent at each call.
ghost use Rattle.std.specs.Prelude.{◌≡◌, ◌<◌};
ghost use Rattle.delay.specs.Branches.{Fit, firsts};

use super::branches::{Shape, Turn};

pub mod calls;

// Whose turn it is, and the slot of each branch that its next element goes into, in memory for the most branches: there is no heap.
#[derive(Clone, Copy)]
pub struct Delay {
    shape: Shape,
    turn: Turn,
    slots: [u16; 255],
    ghost inside: { turn.branch < shape.branches },
    ghost placed: { turn.first ≡ firsts shape turn.branch },
    ghost fit: { Fit shape slots },
}
