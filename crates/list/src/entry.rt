// One signed entry of a list.
ghost use Rattle.std.specs.Prelude.{◌≡◌};
ghost use Rattle.list.specs.Faces.{is_end, num, run_length};
ghost use Rattle.list.specs.Check.{outside};

// Whether the entry is the -1 that ends a face.
pub fn is_end(entry: i32) -> bool
    ensures { result ≡ is_end entry }
{
    entry == -1
}

// Whether the entry is below -1 or at least n. With one added -1 is 0, which is not above n.
pub fn is_outside(entry: i32, n: usize) -> bool
    ensures { result ≡ outside n entry }
{
    let above = i64::from(entry) + 1;
    above < 0 || n < above as usize
}

// The entry as a vertex, 0 where it is negative.
// kept: `as`, since usize::try_from, here and above, misses the bar of speed: the check of triangles took 1.8 times as long; and 0
// in place of None, for `num`, by which every definition reads an entry, has 0 there.
pub fn vertex(entry: i32) -> usize
    ensures { result ≡ num entry }
{
    entry.max(0) as usize
}

// The number of entries before the first -1 of the part.
pub fn run_length(part: &[i32]) -> usize
    ensures { result ≡ run_length part.now }
{
    part.iter()
        .position(|&entry| is_end(entry))
        .unwrap_or(part.len())
}
