// The bytes of a text.
ghost use Rattle.std.specs.Prelude.{◌≡◌};
ghost use Rattle.number.specs.Bytes.{is_separator, ends_line, in_number, is_digit, in_comment, in_gap};

pub const HASH: u8 = b'#';

pub const OPEN: u8 = b'[';

pub const CLOSE: u8 = b']';

pub const MINUS: u8 = b'-';

pub const PLUS: u8 = b'+';

pub const ZERO: u8 = b'0';

// A byte that separates by itself.
pub fn is_separator(b: u8) -> bool
    ensures { result ≡ is_separator b }
{
    matches!(b, b'\t' | b'\n' | b'\r' | b' ' | b',')
}

// A byte that ends a comment.
pub fn ends_line(b: u8) -> bool
    ensures { result ≡ ends_line b }
{
    matches!(b, b'\n' | b'\r')
}

// A byte of a number, inside the brackets. `#` is asked for behind the separators, here and in `in_gap`: the compiler then makes
// one test of all of them.
pub fn in_number(b: u8) -> bool
    ensures { result ≡ in_number b }
{
    !is_separator(b) && b != HASH && !matches!(b, OPEN | CLOSE)
}

pub fn is_digit(b: u8) -> bool
    ensures { result ≡ is_digit b }
{
    b.is_ascii_digit()
}

// Whether a comment goes on behind `b`, where `comment` says whether `b` stands in one.
pub fn in_comment(comment: bool, b: u8) -> bool
    ensures { result ≡ in_comment comment b }
{
    if comment { !ends_line(b) } else { b == HASH }
}

// Whether `b` belongs to what separates.
pub fn in_gap(comment: bool, b: u8) -> bool
    ensures { result ≡ in_gap comment b }
{
    comment || is_separator(b) || b == HASH
}
