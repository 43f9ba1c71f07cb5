// Edge tables run and compared: the bench lists with all words of their tables, questions about edges, and lists of 65,536
// entries, with the sum of the words of each block, so that both ways of sorting run at the limit.
#![tactic(auto)]

ghost use Rattle.std.specs.Prelude.{◌≤◌, length};
ghost use Rattle.list.specs.Limits.{max_entries};

use list::{Fault, IndexList, Refusal, ValidList};
use std::{fmt, io};

const LIMIT: usize = IndexList::MAX_ENTRIES;

// The corners of the longest lists: three of each four entries.
const CORNERS: usize = LIMIT / 4 * 3;

// Two tetrahedra on one edge.
// kept: here and in cut_bench, as the other bench lists: a library for them would be longer.
const BODIES: [i32; 32] = [
    0, 1, 2, -1, 0, 3, 1, -1, 0, 2, 3, -1, 1, 3, 2, -1, 0, 1, 4, -1, 0, 5, 1, -1, 0, 4, 5, -1, 1,
    5, 4, -1,
];

// How many corners and singular edges a table has.
#[derive(Clone, Copy)]
struct Counted {
    corners: usize,
    singular: usize,
}

// Why there is no table.
#[derive(Clone, Copy)]
enum NoTable {
    Invalid(Fault),
    WorkShort,
}

impl From<Fault> for NoTable {
    fn from(fault: Fault) -> NoTable {
        NoTable::Invalid(fault)
    }
}

// The code, and the two counts of a table, or zeros.
#[derive(Clone, Copy)]
struct Made(Result<Counted, NoTable>);

impl fmt::Display for Made {
    fn fmt<W: fmt::Write>(&self, f: &mut fmt::Formatter<W>) -> fmt::Result {
        match self.0 {
            Ok(Counted { corners, singular }) => write!(f, "0 {corners} {singular}"),
            Err(NoTable::Invalid(fault)) => write!(f, "{} 0 0", fault.code()),
            Err(NoTable::WorkShort) => write!(f, "9 0 0"),
        }
    }
}

// The table of a list that the check accepts, in the first words of work.
fn make(list: &[i32], n: usize, work: &mut [u32]) -> Result<Counted, NoTable> {
    let list = ValidList::new(list, n)?;
    if work.len() / 4 < list.corners {
        return Err(NoTable::WorkShort);
    }
    let words = &mut work[..4 * list.corners];
    let singular = edges::edge_table(list.entries, list.vertices, words);
    Ok(Counted {
        corners: list.corners,
        singular,
    })
}

// The words of a small table, with two words past the longest that nothing writes.
fn show(rt: &impl Print, list: &[i32], n: usize) -> io::Result<()> {
    let mut work = [7u32; 98];
    let made = Made(make(list, n, &mut work));
    print!(rt; "{made}:")?;
    for word in &work {
        print!(rt; " {word}")?;
    }
    println!(rt)
}

fn ask(rt: &impl Print, list: &[i32], n: usize, a: i32, b: i32) -> io::Result<()> {
    let [code, place, faces] = edges::numbers(edges::faces_on(list, n, a, b));
    println!(rt; "{code} {place} {faces}")
}

// Faces of three vertices in a row, `step` apart, one behind the other, or all round vertex 0.
fn fill(list: &mut [i32], step: usize, fan: bool)
    requires { (step ≤ 3) × (length list.old ≤ max_entries) }
{
    for (k, face) in list.chunks_exact_mut(4).enumerate() {
        let v = k * step;
        face[0] = if fan { 0 } else { v as i32 };
        face[1] = (v + step) as i32;
        face[2] = (v + 2 * step) as i32;
    }
}

fn sum(words: &[u32]) -> u64
    requires { length words.now ≤ max_entries }
{
    words.iter().map(|word| u64::from(*word)).sum()
}

// A list at the limit: the four sums of its table's blocks.
fn show_long(rt: &impl Print, step: usize, fan: bool, n: usize) -> io::Result<()>
    requires { step ≤ 3 }
{
    let mut list = [-1i32; LIMIT];
    fill(&mut list, step, fan);
    let mut work = [7u32; 4 * CORNERS];
    let made = Made(make(&list, n, &mut work));
    let (nexts, rest) = work.split_at(CORNERS);
    let (vertices, rest) = rest.split_at(CORNERS);
    let (mates, zeros) = rest.split_at(CORNERS);
    println!(rt;
        "{made}:{} {} {} {}",
        sum(nexts),
        sum(vertices),
        sum(mates),
        sum(zeros)
    )
}

fn tables(rt: &impl Print) -> io::Result<()> {
    show(rt, &[], 0)?;
    show(rt, &[7, 3, 9, -1], 10)?;
    show(rt, &[0, 1, 2, -1, 2, 1, 3, -1], 4)?;
    show(rt, &[0, 1, 2, -1, 1, 2, 3], 4)?;
    show(rt, &[0, 1, 2, -1, 0, 3, 4, -1], 5)?;
    show(rt, &[0, 1, 2, -1, 0, 1, 3, -1, 0, 1, 4, -1], 5)?;
    show(rt, &BODIES, 6)?;
    show(rt, &[0, 1, 2, -1, 0, 2, 1, -1], 3)?;
    show(rt, &[0, 1, -1], 2)
}

fn questions(rt: &impl Print) -> io::Result<()> {
    ask(rt, &BODIES, 6, 0, 1)?;
    ask(rt, &BODIES, 6, 2, 0)?;
    ask(rt, &BODIES, 6, 2, 4)?;
    ask(rt, &BODIES, 6, 3, 3)?;
    ask(rt, &BODIES, 6, -1, 0)?;
    ask(rt, &BODIES, 6, 0, 6)?;
    ask(rt, &[0, 1, 2, -1, 0, 3, 0, -1], 4, 1, 1)
}

fn main(rt: HostRuntime) -> io::Result<()> {
    tables(&rt)?;
    questions(&rt)?;
    show_long(&rt, 1, false, 16386)?;
    show_long(&rt, 3, false, 49156)?;
    show_long(&rt, 3, true, IndexList::MAX_VERTICES)
}
