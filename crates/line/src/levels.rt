// The symbols of a segment, checked once.
ghost use Rattle.std.specs.Prelude.{◌≡◌, Some, MatchResult};
ghost use Rattle.line.specs.Segment.{Segment};
ghost use Rattle.line.specs.Levels.{segment_fault};

use crate::LineFault;
use level::are_levels;

// The 832 symbols of a segment, each a level.
#[derive(Clone, Copy)]
pub struct Levels<'a> {
    pub symbols: &'a [i8; 832],
    ghost whole: { Segment symbols.now },
}

impl<'a> Levels<'a> {
    // These symbols, where they make a segment.
    pub fn of(symbols: &'a [i8]) -> Result<Levels<'a>, LineFault>
        ensures { MatchResult result (λ l. l.symbols.now ≡ symbols.now) (λ f. segment_fault symbols.now ≡ Some f) }
    {
        let symbols = <&[i8; 832]>::try_from(symbols).map_err(|_| LineFault::WrongLength)?;
        if !are_levels(symbols) {
            return Err(LineFault::NotLevel);
        }
        Ok(Levels { symbols })
    }
}
