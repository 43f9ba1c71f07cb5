// Index lists in the coordIndex layout: the limits, the cursor that goes from face to face, the check, and showing one face.
// It stands on nothing; every other crate may use it.
#![tactic(auto)]

ghost use Rattle.std.specs.Prelude.{◌≡◌, ◌<◌, ◌≤◌, length, get_or, pos, IfOk, slice_get};
ghost use Rattle.list.specs.Limits.{max_entries, max_vertices};
ghost use Rattle.list.specs.Faces.{is_end, num, faces, corners};
ghost use Rattle.list.specs.Check.{check_of, check_faces, accepted};
ghost use Rattle.list.specs.Told.{code_of, place_of, check_told, check_numbers, valid_told};
ghost use Rattle.list.specs.Flags.{Flags};
ghost use Rattle.std.specs.Option.{option_map};
ghost use Rattle.list.specs.Cursor.{face_seen};
ghost use Rattle.list.specs.Show.{span_of, face_of, asked};

pub mod cursor;
mod entry;
mod refusal;
mod rules;
mod valid;

pub use cursor::{Cursor, Face};
pub use entry::{is_end, vertex};
pub use refusal::Refusal;
pub use rules::FaceFault;
pub use valid::ValidList;

// The list type: it carries the limits, and makes the cursor that goes through a list.
#[derive(Clone, Copy)]
pub struct IndexList {}

// How many faces and corners a valid list has.
#[derive(Clone, Copy, Debug, PartialEq, Eq)]
pub struct Counts {
    pub faces: usize,
    pub corners: usize,
}

// Why a list is refused, with the position in the list.
#[derive(Clone, Copy, Debug, PartialEq, Eq)]
pub enum Fault {
    TooManyEntries,
    TooManyVertices,
    Outside(usize),
    Short(usize),
    Repeated(usize),
}

impl Refusal for Fault {
    ghost code_of = { code_of };

    ghost place_of = { place_of };

    fn code(self) -> u32 {
        match self {
            Fault::TooManyEntries => 1,
            Fault::TooManyVertices => 2,
            Fault::Outside(_) => 3,
            Fault::Short(_) => 4,
            Fault::Repeated(_) => 5,
        }
    }

    fn place(self) -> usize {
        match self {
            Fault::TooManyEntries | Fault::TooManyVertices => 0,
            Fault::Outside(place) | Fault::Short(place) | Fault::Repeated(place) => place,
        }
    }
}

#[derive(Clone, Copy)]
pub struct Span {
    pub start: usize,
    pub end: usize,
}

// Which of two lists is asked about: the one before the cut or the one after it.
#[derive(Clone, Copy)]
pub enum Which {
    Before,
    After,
}

impl IndexList {
    pub const MAX_ENTRIES: usize = 65_536;

    pub const MAX_VERTICES: usize = 65_536;

    // A table for at most so many vertices is quick to clear.
    // kept: its users test for it, each on a walk of its own; a closure that takes either table would have to be generic in its size.
    pub const FEW_VERTICES: usize = 4_096;

    // kept: a function for each constant, as docs/CONTRACTS.md names both: they tie the constants to the definitions.
    pub fn max_entries() -> usize
        ensures { result ≡ max_entries }
    {
        IndexList::MAX_ENTRIES
    }

    pub fn max_vertices() -> usize
        ensures { result ≡ max_vertices }
    {
        IndexList::MAX_VERTICES
    }

    // The cursor at the start of a list.
    pub fn cursor(list: &[i32]) -> Cursor<'_>
        ensures list { result.list.now ≡ list.now }
        ensures at { result.at ≡ 0 }
    {
        Cursor { list, at: 0 }
    }
}

// Whether the entry at position i is the -1 that ends a face; it is not where the list ends before it.
pub fn end_at(l: &[i32], i: usize) -> bool
    ensures { result ≡ is_end (get_or l.now i (pos 0)) }
{
    l.get(i).is_some_and(|&entry| entry::is_end(entry))
}

// The entry at position i as a vertex, 0 where it is negative or the list ends before it.
pub fn vertex_at(l: &[i32], i: usize) -> usize
    ensures { result ≡ num (get_or l.now i (pos 0)) }
{
    l.get(i).map_or(0, |&entry| vertex(entry))
}

// The number of faces and corners of a list that is valid with n vertices, or its first fault.
#[tactic(auto, using(crate::proofs::Checking::check_cases))]
pub fn check(list: &[i32], n: usize) -> Result<Counts, Fault>
    ensures { check_told result ≡ check_of list.now n }
{
    if IndexList::MAX_ENTRIES < list.len() {
        return Err(Fault::TooManyEntries);
    }
    if IndexList::MAX_VERTICES < n {
        return Err(Fault::TooManyVertices);
    }
    if n <= IndexList::FEW_VERTICES {
        check_faces::<{ IndexList::FEW_VERTICES }>(list, n)
    } else {
        check_faces::<{ IndexList::MAX_VERTICES }>(list, n)
    }
}

// The four numbers of an answer in document 01's order; a refusal has no counts.
// kept: `as`, here and in the crates above, since a usize and a u64 have no From.
pub fn numbers(answer: Result<Counts, Fault>) -> [u64; 4]
    ensures { result ≡ check_numbers (check_told answer) }
{
    match answer {
        Ok(counts) => [0, 0, counts.faces as u64, counts.corners as u64],
        Err(fault) => [u64::from(fault.code()), fault.place() as u64, 0, 0],
    }
}

// The check of a list within the limits, face by face, with flags for at most MOST vertices.
fn check_faces<const MOST: usize>(list: &[i32], n: usize) -> Result<Counts, Fault>
    requires { (n ≤ MOST) × (0 < MOST) × (MOST ≤ max_vertices) }
    ensures { check_told result ≡ check_faces n (faces list.now) (accepted (length (faces list.now)) (length (corners list.now))) }
{
    let mut flags = [0u8; MOST];
    let mut faces = 0;
    let mut corners = 0;
    for face in IndexList::cursor(list) {
        if let Err(fault) = rules::check_face(face.entries, n, &mut flags) {
            return Err(match fault {
                FaceFault::Outside(i) => Fault::Outside(face.start + i),
                FaceFault::Short => Fault::Short(face.start),
                FaceFault::Repeated(i) => Fault::Repeated(face.start + i),
            });
        }
        faces += 1;
        corners += face.entries.len();
    }
    Ok(Counts { faces, corners })
}

impl<'a> ValidList<'a> {
    // The list with its counts, or its first fault.
    pub fn new(entries: &'a [i32], vertices: usize) -> Result<ValidList<'a>, Fault>
        ensures told { valid_told result ≡ check_of entries.now vertices }
        ensures same { IfOk result (λ l. (l.entries.now ≡ entries.now) × (l.vertices ≡ vertices)) }
    {
        let Counts { faces, corners } = check(entries, vertices)?;
        Ok(ValidList {
            entries,
            vertices,
            faces,
            corners,
        })
    }
}

// Face k of the list. It reads any entries.
fn face_at(list: &[i32], k: usize) -> Option<Face<'_>>
    ensures { option_map face_seen result ≡ slice_get (faces list.now) k }
{
    IndexList::cursor(list).nth(k)
}

// Where face k of the list starts and ends, without its -1; 0 and 0 where there is no face k. It reads any entries.
// kept: no Option, since `span_of`, which every user is promised, answers 0 and 0 there.
#[tactic(auto, using(crate::proofs::Shown::shown_cases))]
pub fn face_span(list: &[i32], k: usize) -> Span
    ensures { result ≡ span_of list.now k }
{
    match face_at(list, k) {
        Some(face) => Span {
            start: face.start,
            end: face.start + face.entries.len(),
        },
        None => Span { start: 0, end: 0 },
    }
}

// Face k of the list before the cut or of the list after it, a part of that list without its -1; where there is no face k,
// the empty part at the start of that list.
pub fn face<'a>(before: &'a [i32], after: &'a [i32], which: Which, k: usize) -> &'a [i32]
    ensures { result.now ≡ face_of (asked which before.now after.now) k }
{
    match which {
        Which::Before => part(before, k),
        Which::After => part(after, k),
    }
}

fn part(list: &[i32], k: usize) -> &[i32]
    ensures { result.now ≡ face_of list.now k }
{
    let span = face_span(list, k);
    &list[span.start..span.end]
}
