// A line that holds eight symbols in three bytes.
#![tactic(auto)]

ghost use Rattle.std.specs.Prelude.{◌≡◌, ℕ, ◌<◌, true, List, [], length, slice_index_or};
ghost use Rattle.level.specs.Level.{all_levels};
ghost use Rattle.packed_line.specs.Packing.{unpacked};
ghost use Rattle.line.specs.Segment.{Segment};
ghost use Rattle.slot_line.specs.Slot.{fits_slots};
ghost use Rattle.packed_line.specs.Packed.{PackedLine, packed_state, packed_fits};

use line::Line;
use packing::{pack, unpack};
use slot_line::{Layout, SlotLine};
use std::array;

mod packing;

// Slots of 312 bytes. Three bytes hold eight symbols, three bits each, the first symbol in the highest bits of the first byte.
pub struct Packed;

// A line over such slots.
pub type PackedLine = SlotLine<Packed>;

impl Layout for Packed {
    type Cell = u8;

    ghost CELLS = { 312 };

    const CELLS: usize = 312;

    ghost segment_in = { unpacked };

    fn store(segment: &[i8; 832], slot: &mut [u8]) {
        let (groups, _) = segment.as_chunks::<8>();
        let bytes: [[u8; 3]; 104] = array::from_fn(
            |k: usize| -> [u8; 3]
                requires inside { k < length groups.now }
                requires levels { all_levels (slice_index_or groups.now k []) ≡ true }
                ensures holds { unpacked result ≡ slice_index_or groups.entry.now k [] }
                ensures three { length result ≡ 3 }
            { pack(&groups[k]) },
        );
        slot.copy_from_slice(bytes.as_flattened());
    }

    fn load(slot: &[u8], out: &mut [i8; 832]) {
        let (groups, _) = slot.as_chunks::<3>();
        let symbols: [[i8; 8]; 104] = array::from_fn(
            |k: usize| -> [i8; 8]
                requires { k < length groups.now }
                ensures { result ≡ unpacked (slice_index_or groups.entry.now k []) }
            { unpack(&groups[k]) },
        );
        out.copy_from_slice(symbols.as_flattened());
    }

    ghost use Rattle.std.proofs.Common.{rules};

    ghost some = { Prim.search rules };
}

// The meaning of a packed line, and the memories that make one, in this layout's own words; and whatever the bytes of a slot, they hold a segment.
pub fn laws_stand()
    ensures state { (l : PackedLine) → ⟦<PackedLine as Line>⟧.state l ≡ packed_state l }
    ensures fits { (n first : ℕ) → fits_slots 312 n first ≡ packed_fits n first }
    ensures whole { (bytes : List ℕ) → length bytes ≡ 312 → Segment (unpacked bytes) }
{}

#[cfg(test)]
mod tests {
    use super::*;
    use line::levels::Levels;
    use std::test::Fail;

    #[test]
    fn the_first_symbol_lies_highest(rt: HostRuntime) -> Result<(), Fail> {
        let memory = vec![in rt.alloc(); 0u8; 312]?;
        let Ok(mut line) = PackedLine::new(memory, 7) else {
            return Err(Fail::new("no line"));
        };
        let mut segment = [1i8; 832];
        segment[0] = -7;
        segment[1] = -5;
        segment[7] = 7;
        let Ok(levels) = Levels::of(&segment) else {
            return Err(Fail::new("no levels"));
        };
        let mut slot = [0u8; 312];
        Packed::store(levels.symbols, &mut slot);
        let mut out = [0i8; 832];
        assert_eq!(rt; slot.get(0), Some(&6));
        assert_eq!(rt; line.put(&segment), Ok(()));
        assert_eq!(rt; line.take(&mut out), Ok(()));
        assert_eq!(rt; &out[..], &segment[..]);
        Ok(())
    }
}
