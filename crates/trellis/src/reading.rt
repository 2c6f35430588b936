// The reader of data symbols, which marks the bytes that it doubts.
ghost use Rattle.std.specs.Prelude.{◌≡◌, ℕ, ◌<◌, true, length, replicate, ℤ, pos, slice_index_or, MatchResult};
ghost use Rattle.level.specs.Level.{bits_of, is_level};
ghost use Rattle.trellis.specs.Reader.{read_answer, new_memory, noted, pair_of, joined, ReaderAfter, PairRead, Reads, ReadsOn, ReadsOne};

use crate::lanes::{Coder, Lane, walk};
use level::{Bits, are_levels};
use refusal::Refusal;

// A byte as read, and whether one of its symbols was doubted.
#[derive(Clone, Copy, Default)]
pub struct Marked {
    pub byte: u8,
    pub marked: bool,
}

// Two bits of a byte as a number, and whether their symbol is doubted.
#[derive(Clone, Copy)]
struct Pair {
    number: u8,
    doubted: bool,
}

// What is kept of one encoder: Z2 and Z0 of its last symbol, and the Z0 that its next symbol should have.
#[derive(Clone, Copy, Default)]
struct Memory {
    z2: bool,
    z0: bool,
    expected: bool,
}

impl Marked {
    // The byte with the pair of a group joined: the first group of four begins it.
    fn joined(self, group: usize, pair: Pair) -> Marked
        requires { pair.number < 4 }
        ensures { result ≡ joined self group pair }
    {
        if group % 4 == 0 {
            Marked {
                byte: pair.number,
                marked: pair.doubted,
            }
        } else {
            Marked {
                byte: self.byte % 64 * 4 + pair.number,
                marked: self.marked || pair.doubted,
            }
        }
    }
}

// The symbols of a data segment, which are levels.
#[derive(Clone, Copy)]
struct Symbols<'a> {
    levels: &'a [i8; 828],
    // How many first symbols of each encoder are not doubted.
    undoubted: usize,
    ghost each_level: { (place : ℕ) → place < 828 → is_level (slice_index_or levels.now place (pos 0)) ≡ true },
}

impl<'a> Symbols<'a> {
    // The bits of the symbol at a place.
    fn bits(&self, place: usize) -> Bits
        requires { place < 828 }
        ensures { result ≡ bits_of (slice_index_or self.now.levels.now place (pos 0)) }
    {
        let Some(bits) = Bits::of(self.levels[place]) else {
            unreachable!()
        };
        bits
    }
}

impl Memory {
    // Reads the encoder's next symbol, and doubts it only where asked.
    fn take(&mut self, bits: Bits, asked: bool) -> Pair
        ensures pair { result ≡ pair_of self.old bits asked }
        ensures small { result.number < 4 }
        ensures after { self.new ≡ noted self.old bits }
    {
        let x2 = bits.z2 ^ self.z2;
        let doubted = asked && (bits.z0 ^ self.expected);
        self.expected = self.z0 ^ bits.z1;
        self.z2 = bits.z2;
        self.z0 = bits.z0;
        Pair {
            number: 2 * (x2 as u8) + (bits.z1 as u8),
            doubted,
        }
    }

    // Reads the encoder's next symbol as pair 0, 1, 2 or 3 of a byte, and joins it to the part of the byte so far.
    fn read_pair(&mut self, part: Marked, pair: usize, bits: Bits, asked: bool) -> Marked
        ensures { PairRead bits asked pair part result self.old self.new }
    {
        let read = self.take(bits, asked);
        part.joined(pair, read)
    }
}

// A memory reads symbols into the bytes of a quad.
impl<'a> Coder<Symbols<'a>, [Marked; 828]> for Memory {
    ghost goes = { λ s first place g r before old after quad. ReadsOn s.levels.now first place s.undoubted g r before old after quad };

    fn symbol(&mut self, symbols: &Symbols<'a>, lane: Lane, g: usize, quad: &mut [Marked; 828]) {
        let group = lane.first + g;
        let u = lane.byte(group);
        let bits = symbols.bits(12 * g + lane.place);
        quad[u] = self.read_pair(quad[u], group % 4, bits, g >= symbols.undoubted);
    }

    fn byte(&mut self, symbols: &Symbols<'a>, lane: Lane, g: usize, quad: &mut [Marked; 828]) {
        let u = lane.byte(lane.first + g);
        let mut part = quad[u];
        for pair in 0..4 {
            let bits = symbols.bits(12 * (g + pair) + lane.place);
            part = self.read_pair(part, pair, bits, g + pair >= symbols.undoubted);
        }
        quad[u] = part;
    }

    ghost laws = { record { stays = λ s f p g m q. λ start given h. h; joins = λ s f p a b c x y z i j k t u. λ start given h. u start given (t start given h) } };
}

// The reader of the twelve encoders' symbols.
#[derive(Drop)]
pub struct Reader {
    memories: [Memory; 12],
    // How many first symbols of each encoder are not doubted in the next data segment: two at the start.
    undoubted: usize,
}

impl Reader {
    // A reader that has read nothing.
    pub fn new() -> Reader
        ensures memories { result.memories ≡ replicate 12 new_memory }
        ensures undoubted { result.undoubted ≡ 2 }
        ensures history { (levels : ℕ → ℤ) → ReaderAfter levels 0 result.memories result.undoubted }
    {
        Reader {
            memories: [Memory::default(); 12],
            undoubted: 2,
        }
    }

    // Reads the symbols of one encoder in a data segment.
    fn read_one(&mut self, e: usize, symbols: &Symbols, lane: Lane, quad: &mut [Marked; 828])
        requires { e < 12 }
        ensures { ReadsOne symbols.now.levels.now lane.first lane.place symbols.now.undoubted e self.old.memories quad.old quad.new self.new.memories }
    {
        // A copy is worked on, since its bits stay in registers, which is faster.
        let mut memory = self.memories[e];
        walk(&mut memory, symbols, lane, quad);
        self.memories[e] = memory;
    }

    // Reads the 828 symbols of the next data segment into its quad's bytes; of the segment's number since the start the remainder mod 12 counts.
    pub fn read(
        &mut self,
        symbols: &[i8],
        segment: usize,
        quad: &mut [Marked],
    ) -> Result<(), Refusal>
        ensures answer { result ≡ read_answer symbols.now (length quad.old) }
        ensures after { MatchResult result (λ _. Reads symbols.now segment self.old.memories self.old.undoubted quad.old quad.new self.new.memories self.new.undoubted) (λ _. (self.new ≡ self.old) × (quad.new ≡ quad.old)) }
    {
        let Some(levels) = symbols.as_array() else {
            return Err(Refusal::WrongLength);
        };
        let Some(quad) = quad.as_mut_array() else {
            return Err(Refusal::WrongLength);
        };
        if !are_levels(levels) {
            return Err(Refusal::NotALevel);
        }
        // The writer has this loop too: what is promised of the twelve lanes differs, and one loop over both would be no plainer.
        let turn = 4 * (segment % 3);
        let first = 69 * (segment % 4);
        let received = Symbols {
            levels,
            undoubted: self.undoubted,
        };
        for place in 0..12 {
            self.read_one((place + turn) % 12, &received, Lane { first, place }, quad);
        }
        self.undoubted = 0;
        Ok(())
    }
}
