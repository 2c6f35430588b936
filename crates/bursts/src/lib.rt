// A layer over any line that negates the symbols in its bursts on their way down.
#![tactic(auto)]

ghost use Rattle.std.specs.Prelude.{◌≡◌, ℕ, ◌+◌, ◌*◌, ◌<◌, ◌≤◌, true, false, map, length, neg_ℤ, Some, None, MatchResult};
ghost use Rattle.level.specs.Level.{is_level, all_levels};
ghost use Rattle.line.specs.State.{Arrived};
ghost use Rattle.line.specs.Line.{put_answer};
ghost use Rattle.bursts.specs.Bursts.{in_burst, in_bursts, in_part, altered, is_bad_after, bad_pair};
ghost use Rattle.bursts.specs.Layer.{layer_state, first_place};
ghost use Rattle.std.proofs.Common.{rules};

use line::levels::Levels;
use line::ring::NUMBERS;
use line::{Line, LineRefusal};
use std::ops::Range;

// How many places there are: 832 × 2⁴⁰.
const PLACES: u64 = 832 * NUMBERS;

// The number by which a bad list of bursts is refused, as integrators are told it.
const BAD_BURSTS: u8 = 10;

// The places from `offset` up to, and not including, `offset + length`.
#[derive(Clone, Copy, PartialEq, Eq, Debug)]
pub struct Burst {
    pub offset: u64,
    pub length: u32,
}

// A layer with its bursts over a lower line.
#[derive(Drop)]
pub struct BurstLayer<L> {
    lower: L,
    list: Vec<Burst>,
}

// What was handed over, since the list has a bad pair, and the number of the first one.
#[derive(Drop)]
pub struct BadBursts<L> {
    pub lower: L,
    pub list: Vec<Burst>,
    pub pair: usize,
}

impl<L> BadBursts<L> {
    // The number by which this refusal is known.
    pub fn number(&self) -> u8
        ensures { result ≡ 10 }
    {
        BAD_BURSTS
    }
}

// Whether a burst may not follow one that ends at `end`.
fn is_bad(end: u64, burst: Burst) -> bool
    ensures { result ≡ is_bad_after end burst }
{
    burst.length == 0
        || burst.offset < end
        || burst.offset > PLACES
        || burst.offset + burst.length as u64 > PLACES
}

// The number of the first bad pair of a list, 16 where it is too long, as integrators are told it.
// A loop and not `position`: each burst is judged by the end of the one before it.
pub fn first_bad(list: &[Burst]) -> Option<usize>
    ensures { result ≡ bad_pair list.now }
{
    if list.len() > 16 {
        return Some(16);
    }
    let mut end = 0;
    for (i, burst) in list.iter().enumerate() {
        if is_bad(end, *burst) {
            return Some(i);
        }
        end = burst.offset + burst.length as u64;
    }
    None
}

// Whether a place lies in a burst.
fn covered(burst: Burst, place: u64) -> bool
    ensures { result ≡ in_burst burst place }
{
    burst.offset <= place && place - burst.offset < burst.length as u64
}

// Whether a place lies in one of the bursts.
fn within(bursts: &[Burst], place: u64) -> bool
    ensures { result ≡ in_bursts bursts.now place }
{
    bursts.iter().any(|burst| covered(*burst, place))
}

// The positions of the segment whose first symbol has the place `first` that lie in a burst.
fn part_of(burst: Burst, first: u64) -> Range<usize>
    ensures ordered { result.start ≤ result.end }
    ensures inside { result.end ≤ 832 }
    ensures exact { (i : ℕ) → i < 832 → in_part result.start result.end i ≡ in_burst burst (first + i) }
{
    let length = burst.length as u64;
    if burst.offset >= first {
        let start = (burst.offset - first).min(832);
        let end = (start + length).min(832);
        start as usize..end as usize
    } else {
        let end = length.saturating_sub(first - burst.offset).min(832);
        0..end as usize
    }
}

// Whether a burst meets the segment whose first symbol has the place `first`.
fn meets(burst: Burst, first: u64) -> bool
    ensures { result ≡ false → (i : ℕ) → i < 832 → in_burst burst (first + i) ≡ false }
{
    !part_of(burst, first).is_empty()
}

// Whether one of the bursts meets that segment.
fn any_meets(bursts: &[Burst], first: u64) -> bool
    ensures { result ≡ false → (i : ℕ) → i < 832 → in_bursts bursts.now (first + i) ≡ false }
{
    bursts.iter().any(|burst| meets(*burst, first))
}

// The opposite level.
fn opposite(level: i8) -> i8
    requires { is_level level ≡ true }
    ensures { result ≡ neg_ℤ level }
{
    -level
}

// Writes the opposite levels.
fn negate(levels: &[i8], out: &mut [i8])
    requires levels { all_levels levels.now ≡ true }
    requires same { length out.old ≡ length levels.now }
    ensures { out.new ≡ map neg_ℤ levels.now }
{
    // By index: a copy that is then negated in place takes half as long again.
    for (i, level) in levels.iter().enumerate() {
        out[i] = opposite(*level);
    }
}

// The segment whose first symbol has the place `first`, with the symbols in the bursts negated.
fn alter(bursts: &[Burst], first: u64, segment: &[i8; 832]) -> [i8; 832]
    requires { all_levels segment.now ≡ true }
    ensures { result ≡ altered bursts.now first segment.now }
{
    let mut copy = *segment;
    for burst in bursts {
        let Range { start, end } = part_of(*burst, first);
        negate(&segment[start..end], &mut copy[start..end]);
    }
    copy
}

impl<L: Line> BurstLayer<L> {
    // A layer with these bursts over a line.
    pub fn new(lower: L, list: Vec<Burst>) -> Result<BurstLayer<L>, BadBursts<L>>
        ensures { MatchResult result (λ b. (bad_pair list.items ≡ None) × (b.lower ≡ lower) × (b.list ≡ list)) (λ e. (bad_pair list.items ≡ Some e.pair) × (e.lower ≡ lower) × (e.list ≡ list)) }
    {
        match first_bad(&list) {
            Some(pair) => Err(BadBursts { lower, list, pair }),
            None => Ok(BurstLayer { lower, list }),
        }
    }

    // Puts the segment with the symbols in the bursts negated on the lower line, and answers as that line does.
    fn put_altered(&mut self, segment: &[i8]) -> Result<(), LineRefusal>
        ensures answer { result ≡ put_answer (L.Line.state self.old.lower) segment.now }
        ensures list { self.new.list ≡ self.old.list }
        ensures lower { MatchResult result (λ _. Arrived (L.Line.state self.old.lower) (altered self.old.list.items (first_place (L.Line.state self.old.lower)) segment.now) (L.Line.state self.new.lower)) (λ _. L.Line.state self.new.lower ≡ L.Line.state self.old.lower) }
    {
        let first = 832 * self.number();
        // No burst is asked for where the lower line refuses the length.
        if segment.len() != 832 {
            return self.lower.put(segment);
        }
        if !any_meets(&self.list, first) {
            return self.lower.put(segment);
        }
        let Ok(levels) = Levels::of(segment) else {
            return self.lower.put(segment);
        };
        self.lower.put(&alter(&self.list, first, levels.symbols))
    }
}

impl<L: Line> Line for BurstLayer<L> {
    ghost state = { λ b. layer_state L.Line.state b };

    ghost sound = { Prim.search rules };

    // What the lower line is given is the segment with the symbols in the bursts negated.
    fn put(&mut self, segment: &[i8]) -> Result<(), LineRefusal>
        ensures answer { result ≡ put_answer (layer_state L.Line.state self.old) segment.now }
        ensures after { MatchResult result (λ _. Arrived (layer_state L.Line.state self.old) segment.now (layer_state L.Line.state self.new)) (λ _. layer_state L.Line.state self.new ≡ layer_state L.Line.state self.old) }
        ensures lower { MatchResult result (λ _. Arrived (L.Line.state self.old.lower) (altered self.old.list.items (first_place (L.Line.state self.old.lower)) segment.now) (L.Line.state self.new.lower)) (λ _. L.Line.state self.new.lower ≡ L.Line.state self.old.lower) }
    {
        self.put_altered(segment)
            .map_err(LineRefusal::under_a_layer)
    }

    fn take(&mut self, out: &mut [i8]) -> Result<(), LineRefusal> {
        self.lower.take(out).map_err(LineRefusal::under_a_layer)
    }

    fn waiting(&self) -> usize {
        self.lower.waiting()
    }

    fn room(&self) -> usize {
        self.lower.room()
    }

    fn number(&self) -> u64 {
        self.lower.number()
    }

    fn scheduled(&self, place: u64) -> bool {
        self.lower.scheduled(place) || within(&self.list, place)
    }
}

#[cfg(test)]
mod tests {
    use super::*;
    use line::LineFault;
    use plain_line::PlainLine;
    use std::alloc::Global;
    use std::test::Fail;

    // A layer with one burst over a line.
    fn layer<L: Line + Drop>(
        heap: Global,
        lower: L,
        offset: u64,
        length: u32,
    ) -> Result<BurstLayer<L>, Fail> {
        let mut list = Vec::new(heap);
        list.push(Burst { offset, length })?;
        BurstLayer::new(lower, list).map_err(|_| Fail::new("bad bursts"))
    }

    // Two layers over a plain line of one segment.
    fn pile(heap: Global) -> Result<BurstLayer<BurstLayer<PlainLine>>, Fail> {
        let memory = vec![in heap; 0i8; 832]?;
        let plain = PlainLine::new(memory, 5).map_err(|_| Fail::new("no line"))?;
        layer(heap, layer(heap, plain, 4160, 2)?, 4161, 2)
    }

    #[test]
    fn layers_stand_on_layers(rt: HostRuntime) -> Result<(), Fail> {
        let mut line = pile(rt.alloc())?;
        let mut out = [3i8; 832];
        assert_eq!(rt; line.put(&out), Ok(()));
        assert_eq!(rt; line.take(&mut out), Ok(()));
        assert!(rt; out[0] == -3 && out[1] == 3 && out[2] == -3 && out[3] == 3);
        Ok(())
    }

    #[test]
    fn refusals_tell_number_and_depth(rt: HostRuntime) -> Result<(), Fail> {
        let mut line = pile(rt.alloc())?;
        let mut out = [0i8; 832];
        assert_eq!(rt;
            line.put(&out),
            Err(LineRefusal {
                fault: LineFault::NotLevel,
                next: 5,
                depth: 0,
            })
        );
        assert_eq!(rt;
            line.take(&mut out),
            Err(LineRefusal {
                fault: LineFault::NothingWaits,
                next: 5,
                depth: 2,
            })
        );
        Ok(())
    }

    #[test]
    fn bursts_end_with_the_last_place(rt: HostRuntime) {
        assert_eq!(rt;
            first_bad(&[Burst {
                offset: PLACES - 2,
                length: 2,
            }],),
            None
        );
        assert_eq!(rt;
            first_bad(&[Burst {
                offset: PLACES - 2,
                length: 3,
            }],),
            Some(0)
        );
        assert_eq!(rt;
            first_bad(&[Burst {
                offset: u64::MAX,
                length: 1,
            }],),
            Some(0)
        );
    }
}
