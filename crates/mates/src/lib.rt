// Mates: for each corner of the work buffer the other use of its edge, met along the order of the corners. It stands on `order`; the
// edge table stands on it and cites its contract only.
#![tactic(auto)]

ghost use Rattle.std.specs.Prelude.{◌≡◌, ℕ, ◌*◌, ◌≤◌, ◌<◌, length};
ghost use Rattle.list.specs.Limits.{max_entries, max_vertices};
ghost use Rattle.order.specs.Choose.{count, up_from};
ghost use Rattle.order.specs.Sort.{part, Kept, KeysBelow};
ghost use Rattle.mates.specs.Matching.{starts_by, RightAt};

mod matching;

// The words of all corners' mates, by their keys, in the third block; the answer is the number of singular edges.
// kept: the whole buffer with c and n, as docs/CONTRACTS.md names `pair_edges`; the walk inside has its blocks as slices.
pub fn pair_edges(work: &mut [u32], c: usize, n: usize) -> usize
    requires { (length work.old ≡ 4 * c) × (c ≤ max_entries) × (n ≤ max_vertices) × KeysBelow c n work.old }
    ensures right { (e : ℕ) → e < c → RightAt c (part 0 c work.old) work.new e }
    ensures counted { result ≡ count (starts_by (part 0 c work.old)) (up_from 0 c) }
    ensures kept { Kept c (2 * c) work.old work.new }
{
    order::order_corners(work, c, n);
    matching::match_corners(work, c, n)
}
