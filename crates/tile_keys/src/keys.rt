//! The keys of tiles and of names.

ghost use Rattle.std.specs.Prelude.{◌≡◌, ◌≤◌, ◌<◌, ◌^◌, unsigned_abs};
ghost use Rattle.grid_core.specs.Name.{IsLabel};
ghost use Rattle.tile_keys.specs.Keys.{tile_key, name_key, first_name_key};
ghost use Rattle.tile_keys.specs.Keys.{interleaved, raised_index};

use grid_core::{Name, TileId};

/// The first key of a name: no tile in reach has it or a greater one.
pub const FIRST_NAME_KEY: u32 = 0xC000_0000;

/// The key of a tile whose numbers are at most 16,384 in size. It is below `FIRST_NAME_KEY`.
pub fn tile_key(id: TileId) -> u32
    requires column { unsigned_abs id.i ≤ 16384 }
    requires row { unsigned_abs id.j ≤ 16384 }
    ensures value { result ≡ tile_key id }
    ensures below { result < first_name_key }
{
    eight_digits(raised(id.i), raised(id.j))
}

/// The key of the segment of this name.
pub fn name_key(name: Name) -> u32
    ensures value { result ≡ name_key name }
    ensures from { first_name_key ≤ result }
    ensures kept { IsLabel name }
{
    FIRST_NAME_KEY + (u32::from(name.editor()) * 65536 + u32::from(name.serial()))
}

/// The number of a tile's column, or of its row, raised by 16,384.
#[inline(always)]
fn raised(index: i32) -> u32
    requires { unsigned_abs index ≤ 16384 }
    ensures value { result ≡ raised_index index }
    ensures small { result ≤ 2 ^ 15 }
{
    (index + 16384) as u32
}

/// Eight digits of two numbers in base 4, by turns, the first number's before the second's.
#[inline(always)]
fn eight_digits(a: u32, b: u32) -> u32
    requires first { a < 65536 }
    requires second { b < 65536 }
    ensures { result ≡ interleaved 8 a b }
{
    65536 * four_digits(a / 256, b / 256) + four_digits(a % 256, b % 256)
}

/// Four digits of each.
#[inline(always)]
fn four_digits(a: u32, b: u32) -> u32
    requires first { a < 256 }
    requires second { b < 256 }
    ensures value { result ≡ interleaved 4 a b }
    ensures small { result < 65536 }
{
    256 * two_digits(a / 16, b / 16) + two_digits(a % 16, b % 16)
}

/// Two digits of each.
#[inline(always)]
fn two_digits(a: u32, b: u32) -> u32
    requires first { a < 16 }
    requires second { b < 16 }
    ensures value { result ≡ interleaved 2 a b }
    ensures small { result < 256 }
{
    16 * (4 * (a / 4) + b / 4) + (4 * (a % 4) + b % 4)
}
