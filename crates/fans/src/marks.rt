// The classes of the vertices from the edge table and the groups in the work buffer, marked in one byte for each vertex.
ghost use Rattle.std.specs.Prelude.{◌≡◌, List, ℕ, ◌*◌, ◌<◌, ℤ, length, drop, set, replicate};
ghost use Rattle.fans.specs.Classes.{classes_of};
ghost use Rattle.fans.specs.Marks.{VerticesBelow, roots_on, fan_mark, raised, final_mark};
ghost use Rattle.groups.specs.Forest.{at, VertexWords, Grouped};

use groups::EdgeTable;

// The class of a vertex, as the number in its byte.
// kept: the marks are bytes and not of this type, for C lends them and `mark` promises the numbers `classes_of`
#[derive(Clone, Copy, Debug, PartialEq, Eq)]
enum Class {
    Standalone = 0,
    Inner = 1,
    Boundary = 2,
    SingularEdge = 3,
    SeveralFans = 4,
}

// Marks each vertex by its number of fans: a fan has one corner without an earlier parent.
// kept: `VerticesBelow`, and that the marks are 0, in the contracts of three passes each, for both tie what is lent to the marks, and
// each pass borrows the marks anew: a struct of both would be made at each call, and hold nothing else.
fn mark_fans(table: EdgeTable<'_>, parents: &[u32], marks: &mut [u8])
    requires { VerticesBelow table.words.now table.corners (length marks.old) × (parents.now ≡ drop (3 * table.corners) table.words.now) × (length parents.now ≡ table.corners) × (marks.old ≡ replicate (length marks.old) 0) }
    ensures { (v : ℕ) → v < length marks.old → at marks.new v ≡ fan_mark (roots_on table.entry.words.now table.entry.corners v 0 table.entry.corners) }
{
    for (e, &parent) in parents.iter().enumerate() {
        if e <= parent as usize {
            let v = table.vertex(e);
            if marks[v] == Class::Standalone as u8 {
                marks[v] = Class::Inner as u8;
            } else {
                marks[v] = Class::SeveralFans as u8;
            }
        }
    }
}

// The vertex v ends a boundary edge: one fan at it is open.
fn raise(marks: &mut [u8], v: usize)
    requires { v < length marks.old }
    ensures { marks.new ≡ set marks.old v (raised (at marks.old v)) }
{
    if marks[v] == Class::Inner as u8 {
        marks[v] = Class::Boundary as u8;
    }
}

// Marks the endpoints of boundary and singular edges.
fn mark_ends(table: EdgeTable<'_>, marks: &mut [u8])
    requires { VerticesBelow table.words.now table.corners (length marks.old) }
    ensures { (v : ℕ) → v < length marks.old → at marks.new v ≡ final_mark table.entry.words.now table.entry.corners v (at marks.old v) }
{
    for e in 0..table.corners {
        if table.is_boundary(e) {
            let (from, to) = table.ends(e);
            raise(marks, from);
            raise(marks, to);
        } else if table.is_singular(e) {
            let (from, to) = table.ends(e);
            marks[from] = Class::SingularEdge as u8;
            marks[to] = Class::SingularEdge as u8;
        }
    }
}

// Marks each vertex with its class.
// kept: the buffer and c, as docs/CONTRACTS.md names `fans::marks::mark` with them.
pub fn mark(w: &[u32], c: usize, marks: &mut [u8])
    requires { VertexWords w.now c (length marks.old) }
    ensures { (l : List ℤ) → Grouped l c w.now → marks.new ≡ classes_of l (length marks.old) }
{
    let table = EdgeTable {
        words: w,
        corners: c,
    };
    marks.fill(Class::Standalone as u8);
    mark_fans(table, &w[3 * c..], marks);
    mark_ends(table, marks);
}
