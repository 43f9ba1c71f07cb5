// Groups of corners across regular edges, in the work buffer: for each corner a parent, in the block behind the edge table, that is
// not after it. It stands on `edges` and cites its contracts only; `fans`, `renumber` and `cut` stand on it.
#![tactic(auto)]

ghost use Rattle.std.specs.Prelude.{◌≡◌, ◌*◌, ◌<◌, ◌^◌, length, take};
ghost use Rattle.list.specs.Faces.{corners};
ghost use Rattle.list.specs.Check.{Valid};
ghost use Rattle.edges.specs.Uses.{singular_edge_count};
ghost use Rattle.groups.specs.Groups.{merge_all, up_to, labels_of};
ghost use Rattle.groups.specs.Parents.{Joins};
ghost use Rattle.groups.specs.Forest.{TableWords, Forest, Grouped, links_across, table_links};

mod parents;
mod table;

use parents::Parents;
pub use table::EdgeTable;

// Joins across the regular edge whose two uses start at the corners e and m: the two corners at each of its endpoints.
fn join_across(table: EdgeTable<'_>, parents: &mut Parents<'_>, e: usize, m: usize)
    requires { (length parents.old.of.now ≡ table.corners) × (e < table.corners) × (m < table.corners) }
    ensures { Joins parents.old parents.new (λ labels. merge_all labels (links_across table.entry.words.now table.entry.corners e m)) }
{
    let f = table.next(e);
    let g = table.next(m);
    if table.vertex(e) == table.vertex(m) {
        parents.join(e, m);
        parents.join(f, g);
    } else {
        parents.join(e, g);
        parents.join(f, m);
    }
}

// Joins across every regular edge, each once, at its earlier use.
fn join_edges(table: EdgeTable<'_>, parents: &mut Parents<'_>)
    requires { length parents.old.of.now ≡ table.corners }
    ensures { Joins parents.old parents.new (λ labels. merge_all labels (table_links table.entry.words.now table.entry.corners)) }
{
    for e in 0..table.corners {
        if let Some(m) = table.later_mate(e) {
            join_across(table, parents, e, m);
        }
    }
}

// Every corner its own parent.
fn separate(parents: &mut [u32])
    requires { length parents.old < 2 ^ 32 }
    ensures { Forest parents.new 0 (up_to (length parents.old)) }
{
    for (i, parent) in parents.iter_mut().enumerate() {
        *parent = i as u32;
    }
}

// The groups of the edge table in w, as parents in its fourth block.
fn group(w: &mut [u32], c: usize)
    requires { TableWords w.old c × (c < 2 ^ 30) }
    ensures { (take (3 * c) w.new ≡ take (3 * c) w.old) × Forest w.new (3 * c) (labels_of c (table_links w.old c)) }
{
    let (words, parents) = w.split_at_mut(3 * c);
    separate(parents);
    let table = EdgeTable { words, corners: c };
    join_edges(table, &mut Parents { of: parents });
}

// The edge table of a valid list in the work buffer, with the parents of its groups behind it, and the number of singular edges.
// kept: list, n and c apart, as docs/CONTRACTS.md names `group_list`: a `ValidList` would ask its caller for the number of faces too.
pub fn group_list(list: &[i32], n: usize, c: usize, work: &mut [u32]) -> usize
    requires { Valid list.now n × (c ≡ length (corners list.now)) × (length work.old ≡ 4 * c) }
    ensures { Grouped list.now c work.new × (result ≡ singular_edge_count list.now) }
{
    let singular = edges::edge_table(list, n, work);
    group(work, c);
    singular
}
