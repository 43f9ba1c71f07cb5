// The lines that the program prints: numbers in shortest decimal, and the text of a list.
ghost use Rattle.std.specs.Prelude.{◌≡◌, ◌+◌, ◌++◌, ◌∷◌, [], ◌≤◌, length};
ghost use Rattle.number.specs.Decimal.{decimal_text};
ghost use Rattle.number.specs.Steps.{put};
ghost use Rattle.program.specs.Limits.{input_entries, output_bytes};
ghost use Rattle.program.specs.Printed.{line, list_line};

use crate::OUTPUT_BYTES;
use number::decimal::{digit_count, put_digits};

// Puts a number at `at` with the byte behind it, and answers the place behind that.
// kept: the output and the place are two parameters, since only this one and `put_list` take both; `put_line` takes no place.
fn put_number(number: u64, behind: u8, output: &mut [u8; OUTPUT_BYTES], at: usize) -> usize
    requires { at + 21 ≤ output_bytes }
    ensures value { (result ≡ at + length (decimal_text number) + 1) × (result ≤ at + 21) }
    ensures output_after { output.new ≡ put at (decimal_text number ++ behind ∷ []) output.old }
{
    let count = digit_count(number);
    put_digits(output, at, count, number);
    let end = at + count;
    output[end] = behind;
    end + 1
}

// Puts the line of the numbers at the start of the output, and answers its length: a space behind each, a line feed behind the last.
pub fn put_line(numbers: &[u64; 7], output: &mut [u8; OUTPUT_BYTES]) -> usize
    ensures value { (result ≡ length (line numbers.now)) × (result ≤ 147) }
    ensures output_after { output.new ≡ put 0 (line numbers.now) output.old }
{
    let mut at = 0;
    for (i, number) in numbers.iter().enumerate() {
        let behind = if i + 1 < numbers.len() { b' ' } else { b'\n' };
        at = put_number(*number, behind, output, at);
    }
    at
}

// Puts the text of the list at `at` with a line feed behind it, and answers the place behind that.
pub fn put_list(list: &[i32], output: &mut [u8; OUTPUT_BYTES], at: usize) -> usize
    requires { (length list.now ≤ input_entries) × (at + length (list_line list.now) ≤ output_bytes) }
    ensures value { result ≡ at + length (list_line list.now) }
    ensures output_after { output.new ≡ put at (list_line list.now) output.old }
{
    let end = at + text::write(list, &mut output[at..]).unwrap();
    output[end] = b'\n';
    end + 1
}
