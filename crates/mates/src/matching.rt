// Mates from an order of the corners by the lower vertices of their keys: each corner meets the last one before it that has its
// key. A table has for each vertex the last corner met whose key has it as the higher one, and 0 where none was met: with the key
// of corner 0 no corner comes before that one.
ghost use Rattle.std.specs.Prelude.{◌≡◌, ℕ, ◌+◌, ◌*◌, ◌≤◌, ◌<◌, length, get_or, replicate, if◌then◌else◌};
ghost use Rattle.list.specs.Limits.{max_vertices};
ghost use Rattle.order.specs.Choose.{count, up_from};
ghost use Rattle.order.specs.Sort.{part, Kept, higher, KeysBelow, Grouped};
ghost use Rattle.mates.specs.Matching.{word_by, starts_by, RightAt, last_of, starts_met, earlier, noted, Met, Words};

use list::IndexList;

// The higher vertex of a key.
fn higher_of(key: u32) -> usize
    ensures { result ≡ higher key }
{
    key as usize % IndexList::MAX_VERTICES
}

// The last corner met that has the key of the corner at place i of the order, which is noted as met; that corner where none has.
// kept: no Option, here and in the table. The word of a corner that is alone is that corner itself, as `RightAt` has it, so the caller
// does the same for both; and an Option of 16 bits is 32 bits wide, so the table to clear would be 256 KB and not 128.
fn last_before(keys: &[u32], order: &[u32], last: &mut [u16], i: usize) -> u32
    requires { Met keys.now order.now i last.old × (i < length keys.now) }
    ensures last { result ≡ last_of (get_or order.now i 0) (earlier keys.now order.now i) }
    ensures noted { last.new ≡ noted keys.now last.old (get_or order.now i 0) }
{
    let e = order[i];
    let key = keys[e as usize];
    let d = higher_of(key);
    let m = u32::from(last[d]);
    last[d] = e as u16;
    if keys[m as usize] == key { m } else { e }
}

// The corner at place i of the order meets those with its key before it; the answer is whether it is the third of them.
fn meet(keys: &[u32], order: &[u32], mates: &mut [u32], last: &mut [u16], i: usize) -> bool
    requires { Met keys.now order.now i last.old × Words keys.now order.now i mates.old × (i < length keys.now) }
    ensures met { Met keys.now order.now (i + 1) last.new }
    ensures words { Words keys.now order.now (i + 1) mates.new }
    ensures counted { count (starts_met keys.now order.now i) (up_from 0 (length keys.now)) + (if result then 1 else 0) ≡ count (starts_met keys.now order.now (i + 1)) (up_from 0 (length keys.now)) }
{
    // kept: the number of corners as the word of an edge with three or more faces, by mate_word and the promise of pair_edges.
    let many = keys.len() as u32;
    let e = order[i];
    let a = last_before(keys, order, last, i);
    mates[e as usize] = e;
    let b = mates[a as usize];
    if b == a {
        mates[e as usize] = a;
        mates[a as usize] = e;
        return false;
    }
    mates[e as usize] = many;
    if b == many {
        return false;
    }
    mates[a as usize] = many;
    mates[b as usize] = many;
    true
}

// kept: the index, since `Met` and `Words` speak of the corners before the one at place i; and four slices, since `mates` and `last`
// are written and the other two read, and a struct of the four would be made for this one walk.
// All corners meet, with a table for at most MOST vertices; the answer is the number of singular edges.
fn meet_all<const MOST: usize>(keys: &[u32], order: &[u32], mates: &mut [u32]) -> usize
    requires { (MOST ≤ max_vertices) × Met keys.now order.now 0 (replicate MOST 0) × (length mates.old ≡ length keys.now) }
    ensures right { (e : ℕ) → e < length keys.now → get_or mates.new e 0 ≡ word_by keys.now e }
    ensures counted { result ≡ count (starts_by keys.now) (up_from 0 (length keys.now)) }
{
    let mut last = [0u16; MOST];
    let mut singular = 0;
    for i in 0..keys.len() {
        if meet(keys, order, mates, &mut last, i) {
            singular += 1;
        }
    }
    singular
}

// The words of all corners; the answer is the number of singular edges. For few vertices the table is one that is quick to clear.
pub fn match_corners(work: &mut [u32], c: usize, n: usize) -> usize
    requires { Grouped c work.old × (n ≤ max_vertices) × KeysBelow c n work.old }
    ensures right { (e : ℕ) → e < c → RightAt c (part 0 c work.old) work.new e }
    ensures counted { result ≡ count (starts_by (part 0 c work.old)) (up_from 0 c) }
    ensures kept { Kept (2 * c) c work.old work.new }
{
    let (keys, rest) = work.split_at_mut(c);
    let (order, rest) = rest.split_at_mut(c);
    let (mates, _) = rest.split_at_mut(c);
    if n <= IndexList::FEW_VERTICES {
        meet_all::<{ IndexList::FEW_VERTICES }>(keys, order, mates)
    } else {
        meet_all::<{ IndexList::MAX_VERTICES }>(keys, order, mates)
    }
}
