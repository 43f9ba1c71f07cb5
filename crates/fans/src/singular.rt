// The count of the singular vertices for the cut, with one byte for each vertex.
ghost use Rattle.std.specs.Prelude.{◌≡◌, ℕ, ◌<◌, pos, length, get_or, replicate, cond};
ghost use Rattle.list.specs.Faces.{num, vertices};
ghost use Rattle.groups.specs.Forest.{VertexWords};
ghost use Rattle.fans.specs.Marks.{VerticesBelow};
ghost use Rattle.fans.specs.Singular.{fan_met, MadeSingular, NoneWhereZero, EndsCounted, FansCounted};

use groups::EdgeTable;

// What the count knows of a vertex, as the number in its byte.
// kept: the marks are bytes and not of this type, for `singular_ends` and `count_fans` take bytes and promise numbers
#[derive(Clone, Copy, Debug, PartialEq, Eq)]
enum Mark {
    NoFan = 0,
    OneFan = 1,
    Singular = 2,
}

// The vertex v is singular; whether it was not before.
fn make_singular(marks: &mut [u8], v: usize) -> bool
    requires { v < length marks.old }
    ensures { MadeSingular marks.old v marks.new (cond result 1 0) }
{
    let before = marks[v];
    marks[v] = Mark::Singular as u8;
    before < Mark::Singular as u8
}

// Marks the endpoints of singular edges, and answers how many there are.
fn mark_singular_ends(table: EdgeTable<'_>, marks: &mut [u8]) -> usize
    requires { VerticesBelow table.words.now table.corners (length marks.old) × (marks.old ≡ replicate (length marks.old) 0) }
    ensures { EndsCounted table.entry.words.now table.entry.corners marks.new result }
{
    let mut count = 0;
    for e in 0..table.corners {
        if table.is_singular(e) {
            let (from, to) = table.ends(e);
            count += usize::from(make_singular(marks, from));
            count += usize::from(make_singular(marks, to));
        }
    }
    count
}

// The same, where the number of singular edges is known: without any the edge table is not read.
// kept: the buffer and c, as docs/CONTRACTS.md names `fans::singular::singular_ends` with them.
pub fn singular_ends(w: &[u32], c: usize, edges: usize, marks: &mut [u8]) -> usize
    requires { VertexWords w.now c (length marks.old) × (marks.old ≡ replicate (length marks.old) 0) × NoneWhereZero w.now c edges }
    ensures { EndsCounted w.now c marks.new result }
{
    if edges == 0 {
        return 0;
    }
    let table = EdgeTable {
        words: w,
        corners: c,
    };
    mark_singular_ends(table, marks)
}

// The mark once another fan is met.
fn fan_met(mark: u8) -> u8
    ensures { result ≡ fan_met mark }
{
    if mark == Mark::NoFan as u8 {
        Mark::OneFan as u8
    } else {
        Mark::Singular as u8
    }
}

// Meets a fan at the vertex of each entry, and answers how many vertices that makes singular.
pub fn count_fans(map: &[i32], marks: &mut [u8]) -> usize
    requires { (i : ℕ) → i < length map.now → num (get_or map.now i (pos 0)) < length marks.old }
    ensures { FansCounted (vertices map.now) marks.old marks.new result }
{
    let mut count = 0;
    for &entry in map {
        let v = list::vertex(entry);
        let mark = marks[v];
        marks[v] = fan_met(mark);
        count += usize::from(mark == Mark::OneFan as u8);
    }
    count
}
