// Numbers in a text: the number reader, the bytes that a text is made of, and digits written.
// It stands on nothing; the text of a list and the program's lines stand on it.
#![tactic(auto)]

pub mod bytes;
pub mod decimal;

ghost use Rattle.std.specs.Prelude.{◌≡◌, cond, leb};
ghost use Rattle.number.specs.Numbers.{number_bytes, is_minus, unsigned, magnitude_of, greatest, signed, number_at, number_told};
ghost use Rattle.number.specs.Steps.{clipped};

use bytes::{MINUS, PLUS, ZERO, in_number, is_digit};

// A number read in a text, with the place after it.
#[derive(Clone, Copy, Debug, PartialEq, Eq)]
pub struct NumberRead {
    pub value: i32,
    pub next: usize,
}

// Why a number is refused, with the place of its first byte.
#[derive(Clone, Copy, Debug, PartialEq, Eq)]
pub enum NumberFault {
    NotOfTheForm(usize),
    OutOfRange(usize),
}

// The bytes of the number that `rest` begins with.
fn number_bytes(rest: &[u8]) -> &[u8]
    ensures { result.now ≡ number_bytes rest.now }
{
    let end = rest.iter().position(|b| !in_number(*b));
    &rest[..end.unwrap_or(rest.len())]
}

// Whether a minus stands in front, and what stands behind the sign, if there is one.
fn split_sign(number: &[u8]) -> (bool, &[u8])
    ensures minus { result.0 ≡ is_minus number.now }
    ensures digits { result.1.now ≡ unsigned number.now }
{
    match number {
        [MINUS, digits @ ..] => (true, digits),
        [PLUS, digits @ ..] => (false, digits),
        digits => (false, digits),
    }
}

// The value of one or more digits, kept at the greatest `u32` once past it: that is out of range too. It is worked out in 64 bits,
// where a digit more has room.
// kept: no Option for a value past the range, since a byte further on that is no digit makes it code 11: the scan goes on.
fn magnitude(digits: &[u8]) -> Option<u32>
    ensures { result ≡ clipped (magnitude_of digits.now) }
{
    if digits.is_empty() {
        return None;
    }
    let mut m: u64 = 0;
    for b in digits {
        if !is_digit(*b) {
            return None;
        }
        m = (m * 10 + u64::from(*b - ZERO)).min(u64::from(u32::MAX));
    }
    Some(m as u32)
}

// The number of this sign and magnitude, where it is in range.
fn with_sign(minus: bool, m: u32) -> Option<i32>
    ensures { result ≡ cond (leb m (greatest minus)) (Some (signed minus m)) None }
{
    if minus {
        0i32.checked_sub_unsigned(m)
    } else {
        0i32.checked_add_unsigned(m)
    }
}

// Reads at a number: its value with the place after it.
// Refused by 11 where its bytes are no number and by 12 where it is out of range, with its first byte as the place.
pub fn read_number(text: &[u8], at: usize) -> Result<NumberRead, NumberFault>
    ensures { number_told result ≡ number_at text.now at }
{
    let Some(rest) = text.get(at..) else {
        return Err(NumberFault::NotOfTheForm(at));
    };
    let number = number_bytes(rest);
    let (minus, digits) = split_sign(number);
    let m = magnitude(digits).ok_or(NumberFault::NotOfTheForm(at))?;
    let value = with_sign(minus, m).ok_or(NumberFault::OutOfRange(at))?;
    Ok(NumberRead {
        value,
        next: at + number.len(),
    })
}
