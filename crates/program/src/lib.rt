// What the program prints for what it reads, as one function from bytes to bytes. It stands on `text` and `cut`; the program,
// which adds the system calls, stands on it.
#![tactic(auto)]

mod count;
mod line;

ghost use Rattle.std.specs.Prelude.{◌≡◌, length};
ghost use Rattle.number.specs.Steps.{put};
ghost use Rattle.program.specs.Printed.{line as Printed·line, input_code, input_place, refused, printed_cut, Read, printed, response_of};

use list::Refusal;
use text::ReadFault;

// The most bytes of input.
pub const INPUT_BYTES: usize = 16_384;

// The most entries of the list that the input holds.
const INPUT_ENTRIES: usize = 1_024;

// Room for any answer: seven numbers with a byte behind each, and two lists of 32-bit entries, each on its line.
pub const OUTPUT_BYTES: usize = 7 * 21 + 2 * (13 * INPUT_ENTRIES + 3);

// What is printed: the first `length` bytes.
// kept: `respond` is public and documented with this type, and a slice would need the caller's buffer.
#[derive(Drop)]
pub struct Response {
    pub bytes: [u8; OUTPUT_BYTES],
    pub length: usize,
}

// Why an input holds no list.
#[derive(Clone, Copy)]
enum InputFault {
    TooLarge,
    Unread(ReadFault),
}

impl Refusal for InputFault {
    ghost code_of = { input_code };

    ghost place_of = { input_place };

    fn code(self) -> u32 {
        match self {
            InputFault::TooLarge => 14,
            InputFault::Unread(fault) => fault.code(),
        }
    }

    fn place(self) -> usize {
        match self {
            InputFault::TooLarge => INPUT_BYTES,
            InputFault::Unread(fault) => fault.place(),
        }
    }
}

// Puts the line of a refusal at the start of the output, and answers its length.
fn put_refusal(fault: InputFault, output: &mut [u8; OUTPUT_BYTES]) -> usize
    ensures value { result ≡ length (Printed·line (refused fault)) }
    ensures output_after { output.new ≡ put 0 (Printed·line (refused fault)) output.old }
{
    let numbers = [u64::from(fault.code()), fault.place() as u64, 0, 0, 0, 0, 0];
    line::put_line(&numbers, output)
}

// Cuts the list and puts the seven numbers, and if accepted the new list and the map, at the start of the output.
fn put_cut(list: &[i32], output: &mut [u8; OUTPUT_BYTES]) -> usize
    requires { Read list.now }
    ensures value { result ≡ length (printed_cut list.now) }
    ensures output_after { output.new ≡ put 0 (printed_cut list.now) output.old }
{
    let mut new_list = [0i32; INPUT_ENTRIES];
    let mut map = [0i32; INPUT_ENTRIES];
    let mut work = [0u32; 4 * INPUT_ENTRIES];
    let n = count::vertex_count(list);
    let answer = cut::cut(list, n, &mut new_list, &mut map, &mut work);
    let at = line::put_line(&cut::numbers(answer), output);
    let Ok(made) = answer else {
        return at;
    };
    let end = line::put_list(&new_list[..list.len()], output, at);
    line::put_list(&map[..made.vertices], output, end)
}

// Puts what is printed for the input at the start of the output, and answers its length. 14 is looked at first, then 11 to 13.
fn put_answer(input: &[u8], output: &mut [u8; OUTPUT_BYTES]) -> usize
    ensures value { result ≡ length (printed input.now) }
    ensures output_after { output.new ≡ put 0 (printed input.now) output.old }
{
    if INPUT_BYTES < input.len() {
        return put_refusal(InputFault::TooLarge, output);
    }
    let mut list = [0i32; INPUT_ENTRIES];
    match text::read(input, &mut list) {
        Ok(entries) => put_cut(&list[..entries], output),
        Err(fault) => put_refusal(InputFault::Unread(fault), output),
    }
}

// What the program prints for its input: the seven numbers, and if the cut is accepted the new list and the map.
// Refused by 14 where the input is too large, then by 11 to 13 with at most INPUT_ENTRIES entries, then by the cut's codes.
pub fn respond(input: &[u8]) -> Response
    ensures { result ≡ response_of input.now }
{
    let mut bytes = [0u8; OUTPUT_BYTES];
    let length = put_answer(input, &mut bytes);
    Response { bytes, length }
}
