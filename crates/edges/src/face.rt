// One face, handed on as the part of the list that has its entries: its edges' keys, and its corners' words.
ghost use Rattle.std.specs.Prelude.{◌≡◌, ℕ, ◌+◌, ◌≤◌, ◌<◌, length, get_or, map};
ghost use Rattle.list.specs.Limits.{max_entries, max_vertices};
ghost use Rattle.list.specs.Faces.{vertices};
ghost use Rattle.edges.specs.Uses.{uses_of_face, uses_on, next_in, is_edge};
ghost use Rattle.edges.specs.Words.{pair_key, key_of, corner_word, corner_words};

use list::{IndexList, vertex};

// The place that follows place i in a face of m corners: after the last the first.
fn next_in(m: usize, i: usize) -> usize
    requires { i < m }
    ensures { result ≡ next_in m i }
{
    if i + 1 == m { 0 } else { i + 1 }
}

// Two numbers in one word: a corner and its vertex, or two vertices.
fn packed(high: usize, low: usize) -> u32
    requires { (high < max_entries) × (low < max_vertices) }
    ensures { result ≡ corner_word high low }
{
    (high * IndexList::MAX_VERTICES + low) as u32
}

// The key of the edge between two vertices, the lower one first.
fn key(a: usize, b: usize) -> u32
    requires { (a < max_vertices) × (b < max_vertices) }
    ensures { result ≡ pair_key a b }
{
    packed(a.min(b), a.max(b))
}

// The keys of the face's edges and its corners' words, a word of each for a corner. `at` is the number of its first corner.
pub fn write_words(face: &[i32], at: usize, keys: &mut [u32], words: &mut [u32])
    requires face_bound { at + length face.now ≤ max_entries }
    requires room { (length keys.old ≡ length face.now) × (length words.old ≡ length face.now) }
    requires by_index { (i : ℕ) → i < length face.now → get_or (vertices face.now) i 0 < max_vertices }
    ensures keys { keys.new ≡ map key_of (uses_of_face at (vertices face.now)) }
    ensures words { words.new ≡ corner_words (uses_of_face at (vertices face.now)) }
{
    for (i, entry) in face.iter().enumerate() {
        let next = next_in(face.len(), i);
        let from = vertex(*entry);
        let to = vertex(face[next]);
        keys[i] = key(from, to);
        words[i] = packed(at + next, from);
    }
}

// Whether the edge between two vertices is the one between a and b, whichever way it runs.
fn is_edge(from: usize, to: usize, a: usize, b: usize) -> bool
    ensures { result ≡ is_edge from to a b }
{
    (from, to) == (a, b) || (from, to) == (b, a)
}

// The face's uses of the edge between a and b: corner by corner, with the vertex before it, which for the first is the last.
// kept: a loop, since the face zipped with itself from its second corner on, by skip, chain and take, took 1.4 to 2.6 times the
// instructions.
pub fn uses_on(face: &[i32], a: usize, b: usize) -> usize
    ensures { result ≡ length (uses_on (uses_of_face 0 (vertices face.now)) a b) }
{
    let mut from = face.last().map_or(0, |last| vertex(*last));
    let mut count = 0;
    for entry in face {
        let to = vertex(*entry);
        if is_edge(from, to, a, b) {
            count += 1;
        }
        from = to;
    }
    count
}
