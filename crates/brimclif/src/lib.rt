// The C interface: each function hands its arguments on and writes the answer's numbers, in document 01's order, to the caller.
// It stands on the crates whose functions it hands on; `brimclif_c`, which exports it to C, stands on it.
#![tactic(auto)]

ghost use Rattle.std.specs.Prelude.{◌≡◌, ◌-◌, ◌≤◌, ◌∷◌, length, replicate};
ghost use Rattle.list.specs.Check.{check_of};
ghost use Rattle.list.specs.Told.{check_numbers};
ghost use Rattle.list.specs.Show.{span_of};
ghost use Rattle.text.specs.Reading.{read_of, read_into, read_numbers};
ghost use Rattle.text.specs.Writing.{write_of, write_into};
ghost use Rattle.edges.specs.Table.{edge_of};
ghost use Rattle.edges.specs.Told.{edge_numbers};
ghost use Rattle.cut.specs.Cut.{cut_numbers, cut_of, cut_list, cut_map, cut_work, classes_answer, classes_bytes, classes_work};
ghost use Rattle.brimclif.specs.Numbers.{classes_numbers, write_numbers, span_numbers};

use list::Refusal;

// The numbers of a refusal: its code and its place, and all else 0.
// kept: `as` from here on, since a usize and a u64 have no From, as C's numbers are 64 bits wide whatever a usize is.
fn refused<R: Refusal + Copy, const N: usize>(refusal: R) -> [u64; N]
    requires { 2 ≤ N }
    ensures { result ≡ R.code_of refusal ∷ R.place_of refusal ∷ replicate (N - 2) 0 }
{
    let mut numbers = [0; N];
    numbers[0] = u64::from(refusal.code());
    numbers[1] = refusal.place() as u64;
    numbers
}

// Whether the list is valid with n vertices: code, place, faces, corners.
// Refused by 1 to 5.
pub fn brimclif_check(list: &[i32], n: u64, answer: &mut [u64; 4])
    ensures { answer.new ≡ check_numbers (check_of list.now n) }
{
    *answer = list::numbers(list::check(list, n as usize));
}

// How many faces lie on the edge between a and b: code, place, faces.
// Refused by 1 to 5 and 10.
pub fn brimclif_edge(list: &[i32], n: u64, a: i32, b: i32, answer: &mut [u64; 3])
    ensures { answer.new ≡ edge_numbers (edge_of list.now n a b) }
{
    *answer = edges::numbers(edges::faces_on(list, n as usize, a, b));
}

// The class of each vertex, to the start of the class buffer: code, place.
// Refused by 1 to 5, 8 and 9; a refusal writes to no buffer.
pub fn brimclif_classes(
    list: &[i32],
    n: u64,
    classes: &mut [u8],
    work: &mut [u32],
    answer: &mut [u64; 2],
)
    ensures answer_after { answer.new ≡ classes_numbers (classes_answer list.now n (length classes.old) (length work.old)) }
    ensures classes_after { classes.new ≡ classes_bytes list.now n classes.old work.old }
    ensures work_after { work.new ≡ classes_work list.now n classes.old work.old }
{
    *answer = match cut::classes(list, n as usize, classes, work) {
        Ok(()) => [0, 0],
        Err(refusal) => refused(refusal),
    };
}

// The cut, to the start of the new list and of the map: code, place, faces, corners, new vertices, singular edges and vertices.
// Refused by 1 to 7 and 9; a refusal writes to no buffer.
pub fn brimclif_cut(
    list: &[i32],
    n: u64,
    new_list: &mut [i32],
    map: &mut [i32],
    work: &mut [u32],
    answer: &mut [u64; 7],
)
    ensures answer_after { answer.new ≡ cut_numbers (cut_of list.now n (length new_list.old) (length map.old) (length work.old)) }
    ensures new_list_after { new_list.new ≡ cut_list list.now n new_list.old map.old work.old }
    ensures map_after { map.new ≡ cut_map list.now n new_list.old map.old work.old }
    ensures work_after { work.new ≡ cut_work list.now n new_list.old map.old work.old }
{
    *answer = cut::numbers(cut::cut(list, n as usize, new_list, map, work));
}

// Reads the text into the start of the list: code, place, entries read.
// Refused by 11 to 13; a refusal writes no entry.
pub fn brimclif_read(text: &[u8], list: &mut [i32], answer: &mut [u64; 3])
    ensures answer_after { answer.new ≡ read_numbers (read_of text.now (length list.old)) }
    ensures list_after { list.new ≡ read_into text.now list.old }
{
    *answer = text::read_numbers(text::read(text, list));
}

// Writes the list's text to the start of the buffer: code, place, the text's length.
// Refused by 1 and 15; a refusal writes no byte.
pub fn brimclif_write(list: &[i32], text: &mut [u8], answer: &mut [u64; 3])
    ensures answer_after { answer.new ≡ write_numbers (write_of list.now (length text.old)) }
    ensures text_after { text.new ≡ write_into list.now text.old }
{
    *answer = match text::write(list, text) {
        Ok(length) => [0, 0, length as u64],
        Err(fault) => refused(fault),
    };
}

// Where face k of the list starts and ends, without its -1; 0 and 0 where there is no face k.
// It refuses nothing.
pub fn brimclif_face(list: &[i32], k: u64, span: &mut [u64; 2])
    ensures { span.new ≡ span_numbers (span_of list.now k) }
{
    let r = list::face_span(list, k as usize);
    *span = [r.start as u64, r.end as u64];
}
