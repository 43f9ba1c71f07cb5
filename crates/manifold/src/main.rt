// The program: it prints what `program::respond` makes of standard input. It stands on `program`, and adds the system calls.
#![tactic(auto)]

ghost use Rattle.std.specs.Prelude.{◌≤◌, length};

use std::io;
use std::io::Read;

// Fills the buffer as far as the reader goes; the answer is how many bytes were read. A read that fails counts as the end.
// kept: a loop, since read_exact loses the count and read_to_end needs a heap.
fn read_full(reader: &mut impl Read, buffer: &mut [u8]) -> usize
    ensures { result ≤ length buffer.new }
{
    let mut n = 0;
    while n < buffer.len() {
        let Ok(more @ 1..) = reader.read(&mut buffer[n..]) else {
            return n;
        };
        n += more;
    }
    n
}

fn main(rt: HostRuntime) -> io::Result<()> {
    // One byte more than the limit shows that an input is too large.
    let mut input = [0u8; program::INPUT_BYTES + 1];
    let n = read_full(&mut rt.reader(), &mut input);
    let program::Response { bytes, length } = program::respond(&input[..n]);
    rt.write_all(&bytes[..length])
}
