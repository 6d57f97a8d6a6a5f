ghost use Rattle.std.specs.Prelude.{◌+◌, ◌/◌, ◌%◌, ◌<◌, ◌≤◌, [], ◌∷◌, length, decimal};
ghost use Rattle.anti_text.specs.inner.Overwritten.{Overwritten};

use itoa::Buffer;

/// The most digits that a number has.
pub const MOST_DIGITS: usize = 20;

/// Writes bytes over those at a place, and tells where they end.
#[inline(always)]
pub fn overwrite(buffer: &mut [u8], at: usize, bytes: &[u8]) -> usize
    requires { at + length bytes.now ≤ length buffer.old }
    ensures { Overwritten buffer.old buffer.new at bytes.now result }
{
    let end = at + bytes.len();
    buffer[at..end].copy_from_slice(bytes);
    end
}

#[inline(always)]
fn overwrite_byte(buffer: &mut [u8], at: usize, byte: u8) -> usize
    requires { at < length buffer.old }
    ensures { Overwritten buffer.old buffer.new at (byte ∷ []) result }
{
    buffer[at] = byte;
    at + 1
}

// Writes the two digits of a number below 100, the first of which may be a zero.
#[inline(always)]
fn two_digits(buffer: &mut [u8], at: usize, number: u64) -> usize
    requires number { number < 100 }
    requires room { at + 2 ≤ length buffer.old }
    ensures { Overwritten buffer.old buffer.new at
        ((48 + number / 10) ∷ (48 + number % 10) ∷ []) result }
{
    let second = overwrite_byte(buffer, at, b'0' + (number / 10) as u8);
    overwrite_byte(buffer, second, b'0' + (number % 10) as u8)
}

#[inline(always)]
fn below_hundred(buffer: &mut [u8], at: usize, number: u64) -> usize
    requires number { number < 100 }
    requires room { at + 2 ≤ length buffer.old }
    ensures { Overwritten buffer.old buffer.new at (decimal number) result }
{
    if number < 10 {
        overwrite_byte(buffer, at, b'0' + number as u8)
    } else {
        two_digits(buffer, at, number)
    }
}

#[inline(always)]
fn below_ten_thousand(buffer: &mut [u8], at: usize, number: u64) -> usize
    requires number { number < 10000 }
    requires room { at + 4 ≤ length buffer.old }
    ensures { Overwritten buffer.old buffer.new at (decimal number) result }
{
    if number < 100 {
        return below_hundred(buffer, at, number);
    }
    let behind = below_hundred(buffer, at, number / 100);
    two_digits(buffer, behind, number % 100)
}

// The digits of most numbers are written where they stand, from the first to the last.
#[inline(never)]
fn large(buffer: &mut [u8], at: usize, number: u64) -> usize
    requires number { 10000 ≤ number }
    requires room { at + MOST_DIGITS ≤ length buffer.old }
    ensures { Overwritten buffer.old buffer.new at (decimal number) result }
{
    if number >= 1_000_000 {
        let mut digits = Buffer::new();
        return overwrite(buffer, at, digits.format(number).as_bytes());
    }
    let behind = below_ten_thousand(buffer, at, number / 100);
    two_digits(buffer, behind, number % 100)
}

/// Writes a number over the bytes at a place, and tells where it ends.
#[inline(always)]
pub fn overwrite_number(buffer: &mut [u8], at: usize, number: u64) -> usize
    requires { at + MOST_DIGITS ≤ length buffer.old }
    ensures { Overwritten buffer.old buffer.new at (decimal number) result }
{
    if number < 10_000 {
        below_ten_thousand(buffer, at, number)
    } else {
        large(buffer, at, number)
    }
}
