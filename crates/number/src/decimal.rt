// A number written in decimal: how many digits it has, and its digits put into a buffer.
ghost use Rattle.std.specs.Prelude.{◌≡◌, ◌+◌, ◌≤◌, length};
ghost use Rattle.number.specs.Decimal.{width, low_digits};
ghost use Rattle.number.specs.Steps.{put};

use crate::bytes::ZERO;

// How many digits `n` has.
pub fn digit_count(n: u64) -> usize
    ensures { (result ≡ width n) × (result ≤ 20) }
{
    n.max(1).ilog10() as usize + 1
}

// Puts the `count` lowest digits of `n` at `at`, the last one first.
pub fn put_digits(text: &mut [u8], at: usize, count: usize, n: u64)
    requires { at + count ≤ length text.old }
    ensures { text.new ≡ put at (low_digits count n) text.old }
{
    let mut rest = n;
    for k in (0..count).rev() {
        text[at + k] = ZERO + (rest % 10) as u8;
        rest /= 10;
    }
}
