// What C sees of the interface: each export hands its arguments on to the function of its name in `brimclif`, and has its clauses.
// It stands on `brimclif`; nothing in this repository stands on it.
// kept: each function a second time beside `brimclif`, since a crate is a library or a static library, and C needs the exports.
#![tactic(auto)]

ghost use Rattle.std.specs.Prelude.{◌≡◌, length};
ghost use Rattle.list.specs.Check.{check_of};
ghost use Rattle.list.specs.Told.{check_numbers};
ghost use Rattle.list.specs.Show.{span_of};
ghost use Rattle.text.specs.Reading.{read_of, read_into, read_numbers};
ghost use Rattle.text.specs.Writing.{write_of, write_into};
ghost use Rattle.edges.specs.Table.{edge_of};
ghost use Rattle.edges.specs.Told.{edge_numbers};
ghost use Rattle.cut.specs.Cut.{cut_numbers, cut_of, cut_list, cut_map, cut_work, classes_answer, classes_bytes, classes_work};
ghost use Rattle.brimclif.specs.Numbers.{classes_numbers, write_numbers, span_numbers};

// Whether the list is valid with n vertices: code, place, faces, corners.
// Refused by 1 to 5.
#[unsafe(no_mangle)]
pub extern "C" fn brimclif_check(list: &[i32], n: u64, answer: &mut [u64; 4])
    ensures { answer.new ≡ check_numbers (check_of list.now n) }
{
    brimclif::brimclif_check(list, n, answer);
}

// How many faces lie on the edge between a and b: code, place, faces.
// Refused by 1 to 5 and 10.
#[unsafe(no_mangle)]
pub extern "C" fn brimclif_edge(list: &[i32], n: u64, a: i32, b: i32, answer: &mut [u64; 3])
    ensures { answer.new ≡ edge_numbers (edge_of list.now n a b) }
{
    brimclif::brimclif_edge(list, n, a, b, answer);
}

// The class of each vertex, to the start of the class buffer: code, place.
// Refused by 1 to 5, 8 and 9; a refusal writes to no buffer.
#[unsafe(no_mangle)]
pub extern "C" fn brimclif_classes(
    list: &[i32],
    n: u64,
    classes: &mut [u8],
    work: &mut [u32],
    answer: &mut [u64; 2],
)
    ensures answer_after { answer.new ≡ classes_numbers (classes_answer list.now n (length classes.old) (length work.old)) }
    ensures classes_after { classes.new ≡ classes_bytes list.now n classes.old work.old }
    ensures work_after { work.new ≡ classes_work list.now n classes.old work.old }
{
    brimclif::brimclif_classes(list, n, classes, work, answer);
}

// The cut, to the start of the new list and of the map: code, place, faces, corners, new vertices, singular edges and vertices.
// Refused by 1 to 7 and 9; a refusal writes to no buffer.
#[unsafe(no_mangle)]
pub extern "C" fn brimclif_cut(
    list: &[i32],
    n: u64,
    new_list: &mut [i32],
    map: &mut [i32],
    work: &mut [u32],
    answer: &mut [u64; 7],
)
    ensures answer_after { answer.new ≡ cut_numbers (cut_of list.now n (length new_list.old) (length map.old) (length work.old)) }
    ensures new_list_after { new_list.new ≡ cut_list list.now n new_list.old map.old work.old }
    ensures map_after { map.new ≡ cut_map list.now n new_list.old map.old work.old }
    ensures work_after { work.new ≡ cut_work list.now n new_list.old map.old work.old }
{
    brimclif::brimclif_cut(list, n, new_list, map, work, answer);
}

// Reads the text into the start of the list: code, place, entries read.
// Refused by 11 to 13; a refusal writes no entry.
#[unsafe(no_mangle)]
pub extern "C" fn brimclif_read(text: &[u8], list: &mut [i32], answer: &mut [u64; 3])
    ensures answer_after { answer.new ≡ read_numbers (read_of text.now (length list.old)) }
    ensures list_after { list.new ≡ read_into text.now list.old }
{
    brimclif::brimclif_read(text, list, answer);
}

// Writes the list's text to the start of the buffer: code, place, the text's length.
// Refused by 1 and 15; a refusal writes no byte.
#[unsafe(no_mangle)]
pub extern "C" fn brimclif_write(list: &[i32], text: &mut [u8], answer: &mut [u64; 3])
    ensures answer_after { answer.new ≡ write_numbers (write_of list.now (length text.old)) }
    ensures text_after { text.new ≡ write_into list.now text.old }
{
    brimclif::brimclif_write(list, text, answer);
}

// Where face k of the list starts and ends, without its -1; 0 and 0 where there is no face k.
// It refuses nothing.
#[unsafe(no_mangle)]
pub extern "C" fn brimclif_face(list: &[i32], k: u64, span: &mut [u64; 2])
    ensures { span.new ≡ span_numbers (span_of list.now k) }
{
    brimclif::brimclif_face(list, k, span);
}
