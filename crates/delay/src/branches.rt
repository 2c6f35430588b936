// The branches of a delay memory: how many, in which direction, and whose turn it is.
ghost use Rattle.std.specs.Prelude.{◌<◌, ◌≤◌};

pub mod turns;

// Which branches delay longer: the later ones, or the earlier ones.
#[derive(Clone, Copy, PartialEq, Eq, Debug)]
pub enum Direction {
    Interleave,
    Deinterleave,
}

// How many branches there are, and by how many cells the next one differs.
#[derive(Clone, Copy)]
pub(crate) struct Shape {
    pub(crate) branches: usize,
    pub(crate) step: usize,
    pub(crate) direction: Direction,
    ghost some: { 0 < branches },
    ghost few: { branches ≤ 255 },
    ghost long: { 0 < step },
    ghost short: { step ≤ 255 },
}

// The branch whose turn it is, and its first cell.
#[derive(Clone, Copy)]
pub(crate) struct Turn {
    pub(crate) branch: usize,
    pub(crate) first: usize,
}

impl Turn {
    // The first branch's turn.
    pub(crate) const START: Turn = Turn {
        branch: 0,
        first: 0,
    };
}
