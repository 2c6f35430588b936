// Eight symbols in three bytes, and back.
ghost use Rattle.std.specs.Prelude.{◌≡◌, ◌<◌, true, length};
ghost use Rattle.level.specs.Level.{is_level, all_levels, z_of};
ghost use Rattle.packed_line.specs.Packing.{level_from, unpacked};

use std::array;

// The number Z from 0 to 7 of a level.
// In one step: `level::Bits` gives three bits that would be put together again, and takes a fifth more time.
fn number_of(level: i8) -> u8
    requires { is_level level ≡ true }
    ensures value { result ≡ z_of level }
    ensures small { result < 8 }
{
    (level + 7) as u8 / 2
}

// The level of a number Z from 0 to 7. In one step, as the number is made: three bits between are no plainer.
fn level_of(z: u32) -> i8
    requires { z < 8 }
    ensures { result ≡ level_from z }
{
    (2 * z) as i8 - 7
}

// The three bytes of eight symbols.
pub(crate) fn pack(symbols: &[i8; 8]) -> [u8; 3]
    requires { all_levels symbols.now ≡ true }
    ensures holds { unpacked result ≡ symbols.now }
    ensures three { length result ≡ 3 }
{
    let [a, b, c, d, e, f, g, h] = symbols.map(number_of);
    [
        a * 32 + b * 4 + c / 2,
        c % 2 * 128 + d * 16 + e * 2 + f / 4,
        f % 4 * 64 + g * 8 + h,
    ]
}

// The eight symbols of three bytes.
pub(crate) fn unpack(bytes: &[u8; 3]) -> [i8; 8]
    ensures { result ≡ unpacked bytes.now }
{
    let [high, middle, low] = *bytes;
    let bits = u32::from(high) * 65536 + u32::from(middle) * 256 + u32::from(low);
    array::from_fn(
        |k: usize| -> i8
            requires { k < 8 }
        { level_of((bits >> (21 - 3 * k)) % 8) },
    )
}
