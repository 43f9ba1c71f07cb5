// The rules that a face is held to. Each takes one face as a part of the list that starts in its middle.
ghost use Rattle.std.specs.Prelude.{◌≡◌, length, replicate};
ghost use Rattle.list.specs.Faces.{NoEnd, Naturals, vertices, place_or_none};
ghost use Rattle.list.specs.Check.{first_outside, first_repeat, face_fault};
ghost use Rattle.list.specs.Flags.{Flags, Clear, SetWithin, marked, seen_to};

use crate::entry;

// A face of up to this many corners is tested for repeats entry by entry; a longer one in one pass over the flags, which from
// here on is faster.
const SHORT_FACE: usize = 5;

// The first fault of a face, its place counted from where the face starts.
// kept: beside `Fault`, whose places are the list's, since a rule knows neither where its face starts nor the limits.
#[derive(Clone, Copy, Debug, PartialEq, Eq)]
pub enum FaceFault {
    Outside(usize),
    Short,
    Repeated(usize),
}

// The place in the face of its first entry below -1 or at least n.
fn first_outside(face: &[i32], n: usize) -> Option<usize>
    ensures { result ≡ place_or_none face.now (first_outside n face.now) }
{
    face.iter().position(|&entry| entry::is_outside(entry, n))
}

// The first repeat of a short face: each entry, from the left, is looked for in the part before it.
fn repeat_by_looking(face: &[i32]) -> Option<usize>
    requires { Naturals face.now }
    ensures { result ≡ place_or_none face.now (first_repeat (vertices face.now)) }
{
    for (j, entry) in face.iter().enumerate() {
        if face[..j].contains(entry) {
            return Some(j);
        }
    }
    None
}

// Sets the flags of the face's vertices up to its first repeat, whose place is the answer.
fn mark(face: &[i32], flags: &mut [u8]) -> Option<usize>
    requires { Clear (vertices face.now) flags.old }
    ensures repeat { result ≡ place_or_none face.now (first_repeat (vertices face.now)) }
    ensures before_it { flags.new ≡ marked flags.old (seen_to (vertices face.now) (first_repeat (vertices face.now))) }
{
    for (i, &entry) in face.iter().enumerate() {
        let v = entry::vertex(entry);
        if flags[v] != 0 {
            return Some(i);
        }
        flags[v] = 1;
    }
    None
}

// Clears the flags of the part's vertices, the only ones that may be set.
// Out of line, since within `check_face` its loop takes registers that the walk over short faces needs.
#[inline(never)]
fn unmark(part: &[i32], flags: &mut [u8])
    requires { SetWithin (vertices part.now) flags.old }
    ensures { flags.new ≡ replicate (length flags.old) 0 }
{
    for &entry in part {
        flags[entry::vertex(entry)] = 0;
    }
}

// The first repeat of a long face, in one pass; the flags are 0 again afterwards.
fn repeat_by_flags(face: &[i32], flags: &mut [u8]) -> Option<usize>
    requires { Clear (vertices face.now) flags.old }
    ensures repeat { result ≡ place_or_none face.now (first_repeat (vertices face.now)) }
    ensures cleared { flags.new ≡ flags.old }
{
    let repeat = mark(face, flags);
    unmark(&face[..repeat.unwrap_or(face.len())], flags);
    repeat
}

// The face's first fault: an entry outside, then too few entries, then a repeat. The flags are 0 before and afterwards.
// Inline in both walks of `check_faces`: out of line it hands its answer on through memory, a quarter more work on triangles.
#[inline]
#[tactic(auto, using(crate::proofs::Faults::fault_told))]
pub fn check_face(face: &[i32], n: usize, flags: &mut [u8]) -> Result<(), FaceFault>
    requires { NoEnd face.now × Flags n flags.old }
    ensures fault { result ≡ face_fault n face.now }
    ensures cleared { flags.new ≡ flags.old }
{
    if let Some(i) = first_outside(face, n) {
        return Err(FaceFault::Outside(i));
    }
    if face.len() < 3 {
        return Err(FaceFault::Short);
    }
    let repeat = if face.len() <= SHORT_FACE {
        repeat_by_looking(face)
    } else {
        repeat_by_flags(face, flags)
    };
    match repeat {
        Some(i) => Err(FaceFault::Repeated(i)),
        None => Ok(()),
    }
}
