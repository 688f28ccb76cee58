//! Numbers in bytes: integers, `char`, `bool`, `NonZero` and the tags of enums, of which the first bytes may stand
//! alone.
ghost use Rattle.std.specs.Prelude.{◌≡◌, ◌≤◌, ◌<◌, ◌^◌, length, if◌then◌else◌, Option, Some, None};
ghost use Rattle.std.specs.List.{list_all};
ghost use Rattle.tm_base.specs.Cells.{byte_of};
ghost use Rattle.tm_base.specs.Layout.{prim_size};
ghost use Rattle.tm_base.specs.Profiles.{number_of};
ghost use Rattle.tm_base.specs.Valid.{twos_complement};
ghost use Rattle.tm_base.specs.ValidTest.{is_byte, is_scalar};
ghost use Rattle.tm_check.specs.Numbers.{begins_scalar, first_bytes, grown, nonzero_begins, number_within, prim_begins, tag_begins};
ghost use Rattle.tm_check.specs.Runs.{word_of};

use crate::run::Run;
use tm_base::{Cell, Primitive, Profile};

/// The initialised byte. `None`: the cell is none.
fn byte_of(cell: Cell) -> Option<u8>
    ensures { result ≡ if is_byte cell then Some (byte_of cell) else None }
{
    match cell {
        Cell::Byte(byte) => Some(byte),
        _ => None,
    }
}

/// The number of some bytes and one byte behind them, where the bytes are so many and have that number.
fn with_byte(profile: Profile, number: u128, count: u32, byte: u8) -> u128
    requires few { count < 16 }
    requires small { number < 256 ^ count }
    ensures { result ≡ grown profile count number byte }
{
    match profile {
        Profile::Le64 | Profile::Le32 => number + u128::from(byte) * 256_u128.pow(count),
        Profile::Be64 => number * 256 + u128::from(byte),
    }
}

/// The number of initialised bytes. `None`: some cell is none.
fn number_of(profile: Profile, cells: &[Cell]) -> Option<u128>
    requires few { length cells.now ≤ 16 }
    ensures { let number = number_of profile cells.now in
        result ≡ if list_all is_byte cells.now then Some number else None }
{
    let mut number = 0;
    for (count, cell) in cells.iter().enumerate() {
        let byte = byte_of(*cell)?;
        number = with_byte(profile, number, count as u32, byte);
    }
    Some(number)
}

/// The number of initialised bytes, where there are no more than so many. `None`: there are more, or some cell is
/// none.
fn number_within(profile: Profile, most: u32, run: Run<'_>) -> Option<u128>
    requires few { most ≤ 16 }
    ensures { result ≡ number_within profile most (word_of run.entry) }
{
    if run.uninit > 0 || !run.is_within(most as usize) {
        return None;
    }
    number_of(profile, run.told)
}

/// Whether the number is that of a Unicode scalar value.
fn is_scalar(number: u128) -> bool
    ensures { result ≡ is_scalar number }
{
    number <= 0xD7FF || (0xE000 <= number && number <= 0x10FFFF)
}

/// Whether so many bytes that have the number begin a Unicode scalar value.
fn begins_scalar(profile: Profile, count: usize, number: u128) -> bool
    requires few { count ≤ 4 }
    requires small { number < 2 ^ 32 }
    ensures { result ≡ begins_scalar profile count number }
{
    match profile {
        Profile::Le64 | Profile::Le32 => count <= 2 || is_scalar(number),
        Profile::Be64 => is_scalar(number * 256_u128.pow(4 - count as u32)),
    }
}

/// Whether cells begin a primitive of so many bytes.
pub fn primitive(profile: Profile, p: Primitive, size: u32, run: Run<'_>) -> bool
    requires { size ≡ prim_size profile p }
    ensures { result ≡ prim_begins profile p (word_of run.entry) }
{
    let Some(number) = number_within(profile, size, run) else {
        return false;
    };
    match p {
        Primitive::Bool => number <= 1,
        Primitive::Char => begins_scalar(profile, run.told.len(), number),
        _ => true,
    }
}

/// Whether cells begin a `NonZero` of so many bytes.
pub fn nonzero(profile: Profile, size: u32, run: Run<'_>) -> bool
    requires few { size ≤ 16 }
    ensures { result ≡ nonzero_begins profile size (word_of run.entry) }
{
    match number_within(profile, size, run) {
        None => false,
        Some(number) => run.told.len() < size as usize || number > 0,
    }
}

/// The number below 256^size that so many bytes hold for a whole number, in two's complement.
fn twos_complement(size: u32, value: i128) -> u128
    requires few { size ≤ 15 }
    ensures { result ≡ twos_complement size value }
{
    if value < 0 {
        256_u128.pow(size).saturating_sub(value.unsigned_abs())
    } else {
        value.unsigned_abs()
    }
}

/// The number that the first bytes of a number of so many bytes hold.
fn first_bytes(profile: Profile, size: u32, count: u32, number: u128) -> u128
    requires few { size ≤ 15 }
    requires within { count ≤ size }
    ensures { result ≡ first_bytes profile size count number }
{
    match profile {
        Profile::Le64 | Profile::Le32 => number % 256_u128.pow(count),
        Profile::Be64 => number / 256_u128.pow(size - count),
    }
}

/// Whether cells begin a tag of so many bytes that holds the value.
pub fn tag(profile: Profile, size: u32, value: i128, run: Run<'_>) -> bool
    requires few { size ≤ 15 }
    ensures { result ≡ tag_begins profile size value (word_of run.entry) }
{
    let Some(number) = number_within(profile, size, run) else {
        return false;
    };
    let whole = twos_complement(size, value);
    whole < 256_u128.pow(size) && number == first_bytes(profile, size, run.told.len() as u32, whole)
}
