// A line whose segments lie in the slots of a memory, whatever the layout of a slot.
#![tactic(auto)]

ghost use Rattle.std.specs.Prelude.{◌≡◌, ℕ, ◌*◌, ◌≤◌, List, ℤ, true, map, length, vec_len};
ghost use Rattle.level.specs.Level.{all_levels};
ghost use Rattle.line.specs.Segment.{all_segments};
ghost use Rattle.line.specs.Ring.{slots};
ghost use Rattle.slot_line.specs.Slot.{held};

use line::ring::Ring;

pub mod calls;

// How the cells of a slot hold a segment.
pub trait Layout {
    type Cell;

    // How many cells a slot has.
    const CELLS: usize;

    ghost CELLS: { ℕ };

    // The segment that the cells of a slot hold.
    ghost segment_in: { List Self.Cell → List ℤ };

    // Writes a segment into a slot.
    // By a plain reference: behind a field of `Levels` the compiler does not know the two memories apart.
    fn store(segment: &[i8; 832], slot: &mut [Self::Cell])
        requires levels { all_levels segment.now ≡ true }
        requires whole { length slot.old ≡ CELLS }
        ensures { segment_in slot.new ≡ segment.now };

    // Reads the segment in a slot.
    fn load(slot: &[Self::Cell], out: &mut [i8; 832])
        requires { length slot.now ≡ CELLS }
        ensures { out.new ≡ segment_in slot.now };

    // A slot has cells.
    ghost some: { 1 ≤ CELLS };
}

// A ring of slots in a memory of cells.
#[derive(Drop)]
pub struct SlotLine<S: Layout> {
    memory: Vec<S::Cell>,
    ring: Ring,
    ghost whole: { vec_len memory ≡ S.CELLS * (slots ring).room },
    ghost levels: { all_segments (map (held S.CELLS S.segment_in memory.items) (slots ring).taken) ≡ true },
}
