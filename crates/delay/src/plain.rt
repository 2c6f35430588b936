// The plain delay's own state. Its cells are lent at each call.
ghost use Rattle.std.specs.Prelude.{◌<◌};

pub mod calls;

// The cells of a plain delay, one branch with all of them.
#[derive(Clone, Copy)]
pub(crate) struct Chain {
    pub(crate) size: usize,
}

// How many cells there are, and the one that the next element goes into.
#[derive(Clone, Copy)]
pub struct PlainDelay {
    size: usize,
    slot: usize,
    ghost inside: { slot < size },
}
