// Texts read and lists written, one line for each: the whole lent list as a text, so that entries past those read show what
// they hold, and then the three numbers of the answer. The lent list has four entries of 7.
#![tactic(auto)]

ghost use Rattle.std.specs.Prelude.{◌+◌, ◌≤◌};
ghost use Rattle.list.specs.Limits.{max_entries};

use list::Refusal;
use std::io;

const LIMIT: usize = list::IndexList::MAX_ENTRIES;

// The three numbers of an answer: code, place and count.
fn print_answer<R: Refusal + Copy>(rt: &impl Print, answer: Result<usize, R>) -> io::Result<()> {
    let (code, place, count) = match answer {
        Ok(count) => (0, 0, count),
        Err(refusal) => (refusal.code(), refusal.place(), 0),
    };
    println!(rt; "{code} {place} {count}")
}

fn print_list(rt: &impl Print, list: &[i32]) -> io::Result<()> {
    let mut out = [0u8; 64];
    if let Ok(n) = text::write(list, &mut out) {
        rt.write_all(&out[..n])?;
    }
    print!(rt; " ")
}

// Reads a text into a list of four entries.
fn show(rt: &impl Print, source: &[u8]) -> io::Result<()> {
    let mut list = [7i32; 4];
    let answer = text::read(source, &mut list);
    print_list(rt, &list)?;
    print_answer(rt, answer)
}

// Writes a list to a buffer of twelve bytes and prints them all: bytes past the text stay as they were.
fn show_written(rt: &impl Print, list: &[i32]) -> io::Result<()> {
    let mut out = [b'.'; 12];
    let answer = text::write(list, &mut out);
    rt.write_all(&out)?;
    print!(rt; " ")?;
    print_answer(rt, answer)
}

// At the limit: a text of `n` numbers `0`, and a lent list with one entry more than permitted.
fn show_many(rt: &impl Print, n: usize) -> io::Result<()>
    requires { n ≤ max_entries + 1 }
{
    let mut source = [b' '; 2 * LIMIT + 4];
    let mut list = [7i32; LIMIT + 1];
    source[0] = b'[';
    // kept: by an index, since after `chunks_exact_mut` over a part of the array its length didn't prove
    for i in 0..n {
        source[2 * i + 1] = b'0';
    }
    source[2 * LIMIT + 3] = b']';
    let answer = text::read(&source, &mut list);
    print_answer(rt, answer)
}

// A list of one entry more than permitted is refused by 1.
fn show_too_long(rt: &impl Print) -> io::Result<()> {
    let list = [0i32; LIMIT + 1];
    let mut out = [b'.'; 12];
    let answer = text::write(&list, &mut out);
    print_answer(rt, answer)
}

fn values(rt: &impl Print) -> io::Result<()> {
    show(rt, b"[-2147483648]")?;
    show(rt, b"[2147483647]")?;
    show(rt, b"[]")?;
    show(rt, b"[ ]")?;
    show(rt, b"[0]")?;
    show(rt, b"[-0 +07]")?;
    show(rt, b"[0000000000000000001]")?;
    show(rt, b"[-0000000002147483648,+2147483647]")
}

fn separators(rt: &impl Print) -> io::Result<()> {
    show(rt, b"[1,2]")?;
    show(rt, b"[1 ,, 2]")?;
    show(rt, b"[1\t2\n3\r4]")?;
    show(rt, b" ,\t\r\n[1] ,\n")?;
    show(rt, b"# a comment ]\n[1 # another [ ] 5\r2]# the end")?;
    show(rt, b"#\n[1]")?;
    show(rt, b"[1#2\n3]")?;
    show(rt, b"[0, 1, 2, -1]")
}

fn brackets_missing(rt: &impl Print) -> io::Result<()> {
    show(rt, b"")?;
    show(rt, b"#")?;
    show(rt, b" \n")?;
    show(rt, b"# [1]")?;
    show(rt, b"]")?;
    show(rt, b"x[1]")?;
    show(rt, b"  1 [2]")?;
    show(rt, b"[1")?;
    show(rt, b"[1 # ]")
}

fn brackets_doubled(rt: &impl Print) -> io::Result<()> {
    show(rt, b"[1 [2]]")?;
    show(rt, b"[[1]]")?;
    show(rt, b"[1]]")?;
    show(rt, b"[1] [2]")?;
    show(rt, b"[1] 2")?;
    show(rt, b"[1] x # y")
}

fn out_of_range(rt: &impl Print) -> io::Result<()> {
    show(rt, b"[2147483648]")?;
    show(rt, b"[-2147483649]")?;
    show(rt, b"[99999999999999999999999999999999]")?;
    show(rt, b"[1, 00000000004294967296, x]")
}

fn bad_signs(rt: &impl Print) -> io::Result<()> {
    show(rt, b"[1 + 2]")?;
    show(rt, b"[-]")?;
    show(rt, b"[--1]")?;
    show(rt, b"[+-1]")?;
    show(rt, b"[0x1]")?;
    show(rt, b"[1-2]")
}

fn bad_bytes(rt: &impl Print) -> io::Result<()> {
    show(rt, b"[1.0]")?;
    show(rt, b"[{1]")?;
    show(rt, b"[1;2]")?;
    show(rt, b"[1\x002]")?;
    show(rt, b"[1\x0b2]")?;
    show(rt, b"[a 2147483648]")?;
    show(rt, b"[2147483648 a]")
}

fn room(rt: &impl Print) -> io::Result<()> {
    show(rt, b"[1 2 3 4]")?;
    show(rt, b"[1 2 3 4 5]")?;
    show(rt, b"[1 2 3 4 x]")?;
    show(rt, b"[1 2 3 4 2147483648]")?;
    show(rt, b"[1 2 3 4 [")?;
    show(rt, b"[1 2 3 4")?;
    show(rt, b"[1 2 3 4 5 x]")?;
    show_many(rt, LIMIT)?;
    show_many(rt, LIMIT + 1)
}

fn written(rt: &impl Print) -> io::Result<()> {
    show_written(rt, &[1, -2147483648])?;
    show_written(rt, &[12, -345, 6])?;
    show_written(rt, &[12, -34, 6])?;
    show_written(rt, &[])?;
    show_written(rt, &[0])?;
    show_too_long(rt)
}

fn main(rt: HostRuntime) -> io::Result<()> {
    values(&rt)?;
    separators(&rt)?;
    brackets_missing(&rt)?;
    brackets_doubled(&rt)?;
    out_of_range(&rt)?;
    bad_signs(&rt)?;
    bad_bytes(&rt)?;
    room(&rt)?;
    written(&rt)
}
