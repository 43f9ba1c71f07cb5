// The vertex count that the program takes.
ghost use Rattle.std.specs.Prelude.{◌≡◌};
ghost use Rattle.program.specs.Printed.{count_to, vertex_count};

// The number of vertices up to an entry; 0 where the entry is negative. It is worked out in 64 bits.
fn count_to(entry: i32) -> usize
    ensures { result ≡ count_to entry }
{
    match usize::try_from(entry) {
        Ok(vertex) => vertex + 1,
        Err(_) => 0,
    }
}

// The greatest entry plus one; 0 if no entry is above -1.
pub fn vertex_count(list: &[i32]) -> usize
    ensures { result ≡ vertex_count list.now }
{
    list.iter().map(|entry| count_to(*entry)).max().unwrap_or(0)
}
