// The global cut with its map, and the classes of the vertices. It stands on `groups`, `fans` and `renumber` and cites their
// contracts only; the program and the layers of later requests stand on it.
#![tactic(auto)]

ghost use Rattle.std.specs.Prelude.{◌≡◌, ◌*◌, ◌≤◌, length, replicate};
ghost use Rattle.list.specs.Limits.{max_vertices};
ghost use Rattle.edges.specs.Uses.{singular_edge_count};
ghost use Rattle.fans.specs.Classes.{classes_of};
ghost use Rattle.groups.specs.Forest.{Grouped};
ghost use Rattle.cut.specs.Cut.{cut_of, cut_list, cut_map, cut_work, classes_answer, classes_bytes, classes_work};
ghost use Rattle.cut.specs.Told.{cut_told, classes_told};
ghost use Rattle.cut.specs.Made.{GroupsCut, CutMade};

pub mod answer;

pub use answer::{ClassesRefusal, Cut, CutRefusal, numbers, seven_numbers};
use list::{IndexList, ValidList};

// The classes of the vertices 0 to n-1, a byte each at the start of `classes`. Refuses what the check refuses, a class buffer
// shorter than n by 8 and work shorter than four words a corner by 9; then nothing is written.
pub fn classes(
    list: &[i32],
    n: usize,
    classes: &mut [u8],
    work: &mut [u32],
) -> Result<(), ClassesRefusal>
    ensures answer { classes_told result ≡ classes_answer list.now n (length classes.old) (length work.old) }
    ensures bytes { classes.new ≡ classes_bytes list.now n classes.old work.old }
    ensures cleared { work.new ≡ classes_work list.now n classes.old work.old }
{
    let list = ValidList::new(list, n)?;
    if classes.len() < n {
        return Err(ClassesRefusal::ClassesShort(n));
    }
    let words = 4 * list.corners;
    if work.len() < words {
        return Err(ClassesRefusal::WorkShort(words));
    }
    class_list(list, &mut classes[..n], &mut work[..words]);
    Ok(())
}

// The classes of a list in marks for its vertices; the work is cleared.
fn class_list(list: ValidList<'_>, marks: &mut [u8], work: &mut [u32])
    requires { (length marks.old ≡ list.vertices) × (length work.old ≡ 4 * list.corners) }
    ensures { (marks.new ≡ classes_of list.entry.entries.now list.entry.vertices) × (work.new ≡ replicate (4 * list.entry.corners) 0) }
{
    groups::group_list(list.entries, list.vertices, list.corners, work);
    fans::marks::mark(work, list.corners, marks);
    work.fill(0);
}

// The global cut: the new list, the map, and what it counts. Refuses what the check refuses, a new list buffer shorter than the
// list by 6, a map shorter than the corner count by 7 and work shorter than four words a corner by 9; then nothing is written.
pub fn cut(
    list: &[i32],
    n: usize,
    new_list: &mut [i32],
    map: &mut [i32],
    work: &mut [u32],
) -> Result<Cut, CutRefusal>
    ensures answer { cut_told result ≡ cut_of list.now n (length new_list.old) (length map.old) (length work.old) }
    ensures filled { new_list.new ≡ cut_list list.now n new_list.old map.old work.old }
    ensures mapped { map.new ≡ cut_map list.now n new_list.old map.old work.old }
    ensures cleared { work.new ≡ cut_work list.now n new_list.old map.old work.old }
{
    let list = ValidList::new(list, n)?;
    let size = list.entries.len();
    let c = list.corners;
    if new_list.len() < size {
        return Err(CutRefusal::NewListShort(size));
    }
    if map.len() < c {
        return Err(CutRefusal::MapShort(c));
    }
    let words = 4 * c;
    if work.len() < words {
        return Err(CutRefusal::WorkShort(words));
    }
    Ok(cut_list(list, &mut new_list[..size], map, &mut work[..words]))
}

// The cut of a list in buffers that are long enough; the work is cleared.
// kept: the buffers stay three parameters; a struct of three borrows would be made once and taken apart at each use.
fn cut_list(list: ValidList<'_>, new_list: &mut [i32], map: &mut [i32], work: &mut [u32]) -> Cut
    requires { (length new_list.old ≡ length list.entries.now) × (list.corners ≤ length map.old) × (length work.old ≡ 4 * list.corners) }
    ensures { CutMade list.entry.entries.now list.entry.vertices list.entry.faces list.entry.corners result new_list.new map.old map.new work.new }
{
    let singular_edges = groups::group_list(list.entries, list.vertices, list.corners, work);
    let counts = if list.vertices <= IndexList::FEW_VERTICES {
        cut_groups::<{ IndexList::FEW_VERTICES }>(list, singular_edges, new_list, map, work)
    } else {
        cut_groups::<{ IndexList::MAX_VERTICES }>(list, singular_edges, new_list, map, work)
    };
    work.fill(0);
    Cut {
        faces: list.faces,
        corners: list.corners,
        vertices: counts.vertices,
        singular_edges,
        singular_vertices: counts.singular_vertices,
    }
}

// The counts that the groups of a list make: two of those of `Cut`, whose others are known before.
#[derive(Drop)]
struct VertexCounts {
    vertices: usize,
    singular_vertices: usize,
}

// The new vertices of the groups of a list, and the number of its singular vertices, from that of its singular edges, with a
// table for at most MOST vertices.
fn cut_groups<const MOST: usize>(
    list: ValidList<'_>,
    singular_edges: usize,
    new_list: &mut [i32],
    map: &mut [i32],
    work: &mut [u32],
) -> VertexCounts
    requires { (list.vertices ≤ MOST) × (MOST ≤ max_vertices) × Grouped list.entries.now list.corners work.old × (singular_edges ≡ singular_edge_count list.entries.now) × (length new_list.old ≡ length list.entries.now) × (list.corners ≤ length map.old) }
    ensures { GroupsCut list.entry.entries.now list.entry.vertices result.vertices result.singular_vertices new_list.new map.old map.new }
{
    let mut table = [0u8; MOST];
    let marks = &mut table[..list.vertices];
    let ends = fans::singular::singular_ends(work, list.corners, singular_edges, marks);
    let vertices = renumber::renumber(list.entries, work, list.corners, new_list, map);
    let fans = fans::singular::count_fans(&map[..vertices], marks);
    VertexCounts {
        vertices,
        singular_vertices: ends + fans,
    }
}
