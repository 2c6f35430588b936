// A line that holds each symbol in a byte.
#![tactic(auto)]

ghost use Rattle.std.specs.Prelude.{◌≡◌, ℕ};
ghost use Rattle.slot_line.specs.Slot.{fits_slots};
ghost use Rattle.plain_line.specs.Plain.{PlainLine, plain_state, plain_fits};

use line::Line;
use slot_line::{Layout, SlotLine};

// Slots of 832 bytes. Symbol j of a segment is byte j of its slot.
pub struct Plain;

// A line over such slots. Symbol j of the segment in slot k is byte 832 × k + j.
pub type PlainLine = SlotLine<Plain>;

impl Layout for Plain {
    type Cell = i8;

    ghost CELLS = { 832 };

    const CELLS: usize = 832;

    ghost segment_in = { λ cells. cells };

    fn store(segment: &[i8; 832], slot: &mut [i8]) {
        slot.copy_from_slice(segment);
    }

    fn load(slot: &[i8], out: &mut [i8; 832]) {
        out.copy_from_slice(slot);
    }

    ghost use Rattle.std.proofs.Common.{rules};

    ghost some = { Prim.search rules };
}

// The meaning of a plain line, and the memories that make one, in this layout's own words.
pub fn laws_stand()
    ensures state { (l : PlainLine) → ⟦<PlainLine as Line>⟧.state l ≡ plain_state l }
    ensures fits { (n first : ℕ) → fits_slots 832 n first ≡ plain_fits n first }
{}
