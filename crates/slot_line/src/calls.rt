// The calls of a line over slots.
ghost use Rattle.std.specs.Prelude.{◌≡◌, ℕ, ◌+◌, ◌*◌, ◌/◌, ◌≤◌, true, length, is_ok, vec_len, Ok, Err, MatchResult, ◌≢◌};
ghost use Rattle.level.specs.Level.{all_levels};
ghost use Rattle.line.specs.Bottom.{new_state};
ghost use Rattle.line.specs.Line.{here, put_answer, take_answer};
ghost use Rattle.line.specs.State.{Arrived, Taken};
ghost use Rattle.slot_line.specs.Slot.{held, fits_slots};
ghost use Rattle.slot_line.specs.State.{slot_state};
ghost use Rattle.line.proofs.Segments.{segments_of};
ghost use Rattle.line.proofs.Bottoms.{bottom_sound};

use super::{Layout, SlotLine};
use line::levels::Levels;
use line::ring::Ring;
use line::{Line, LineFault, LineRefusal, NoLine};

// Writes a segment into a slot of a memory.
fn store_at<S: Layout>(memory: &mut [S::Cell], slot: usize, segment: &[i8; 832])
    requires inside { S.CELLS * slot + S.CELLS ≤ length memory.old }
    requires levels { all_levels segment.now ≡ true }
    ensures here { held S.CELLS S.segment_in memory.new slot ≡ segment.now }
    ensures others { (i : ℕ) → (i ≢ slot) → held S.CELLS S.segment_in memory.new i ≡ held S.CELLS S.segment_in memory.old i }
{
    let from = S::CELLS * slot;
    S::store(segment, &mut memory[from..from + S::CELLS]);
}

// Reads the segment in a slot of a memory.
fn load_at<S: Layout>(memory: &[S::Cell], slot: usize, out: &mut [i8; 832])
    requires { S.CELLS * slot + S.CELLS ≤ length memory.now }
    ensures { out.new ≡ held S.CELLS S.segment_in memory.now slot }
{
    let from = S::CELLS * slot;
    S::load(&memory[from..from + S::CELLS], out);
}

impl<S: Layout> SlotLine<S> {
    // An empty line over a memory, whose first segment has the number `first`.
    pub fn new(memory: Vec<S::Cell>, first: u64) -> Result<SlotLine<S>, NoLine<Vec<S::Cell>>>
        ensures answer { is_ok result ≡ fits_slots S.CELLS (vec_len memory) first }
        ensures after { MatchResult result (λ l. slot_state l ≡ new_state (vec_len memory / S.CELLS) first) (λ e. e.memory ≡ memory) }
    {
        let length = memory.len();
        if length % S::CELLS != 0 {
            return Err(NoLine { memory });
        }
        match Ring::new(length / S::CELLS, first) {
            Some(ring) => Ok(SlotLine { memory, ring }),
            None => Err(NoLine { memory }),
        }
    }

    // Adds a segment behind the others.
    fn put_segment(&mut self, segment: &[i8]) -> Result<(), LineFault>
        ensures answer { MatchResult result (λ _. put_answer (slot_state self.old) segment.now ≡ Ok tt) (λ f. put_answer (slot_state self.old) segment.now ≡ Err (here (slot_state self.old) f)) }
        ensures after { MatchResult result (λ _. Arrived (slot_state self.old) segment.now (slot_state self.new)) (λ _. slot_state self.new ≡ slot_state self.old) }
    {
        let levels = Levels::of(segment)?;
        let slot = self.ring.put()?;
        store_at::<S>(&mut self.memory, slot, levels.symbols);
        Ok(())
    }

    // Moves the oldest segment into the caller's memory.
    fn take_segment(&mut self, out: &mut [i8]) -> Result<(), LineFault>
        ensures answer { MatchResult result (λ _. take_answer (slot_state self.old) (length out.old) ≡ Ok tt) (λ f. take_answer (slot_state self.old) (length out.old) ≡ Err (here (slot_state self.old) f)) }
        ensures after { MatchResult result (λ _. Taken (slot_state self.old) out.new (slot_state self.new)) (λ _. (slot_state self.new ≡ slot_state self.old) × (out.new ≡ out.old)) }
    {
        let out = out.as_mut_array::<832>().ok_or(LineFault::WrongLength)?;
        let slot = self.ring.take()?;
        load_at::<S>(&self.memory, slot, out);
        Ok(())
    }
}

impl<S: Layout> Line for SlotLine<S> {
    ghost state = { slot_state };

    ghost sound = { λ l. bottom_sound (held S.CELLS S.segment_in l.memory.items) l.ring (segments_of _ l.levels) };

    fn put(&mut self, segment: &[i8]) -> Result<(), LineRefusal> {
        let next = self.number();
        self.put_segment(segment)
            .map_err(|fault| LineRefusal::here(fault, next))
    }

    fn take(&mut self, out: &mut [i8]) -> Result<(), LineRefusal> {
        let next = self.number();
        self.take_segment(out)
            .map_err(|fault| LineRefusal::here(fault, next))
    }

    fn waiting(&self) -> usize {
        self.ring.waiting()
    }

    fn room(&self) -> usize {
        self.ring.room()
    }

    fn number(&self) -> u64 {
        self.ring.number()
    }

    fn scheduled(&self, _place: u64) -> bool {
        false
    }
}
