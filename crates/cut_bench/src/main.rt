// Lists cut and classed, a few lines for each: the seven numbers, the new list, the map and the classes with an entry or a byte
// more than is written, which stays as it was, and how many words of the work are left as they were.
#![tactic(auto)]

ghost use Rattle.std.specs.Prelude.{◌+◌, ◌<◌, ◌^◌};

use cut::{Cut, CutRefusal};
use list::Refusal;
use std::io;

const LIMIT: usize = list::IndexList::MAX_ENTRIES;

// Faces of three entries and their -1 fill a list at the limit.
const FACES: usize = LIMIT / 4;

// Two tetrahedra on one edge.
// kept: here and in edges_bench, as the other bench lists and `print_list`, a second time: a library for them would be longer.
const BODIES: [i32; 32] = [
    0, 1, 2, -1, 0, 3, 1, -1, 0, 2, 3, -1, 1, 3, 2, -1, 0, 1, 4, -1, 0, 5, 1, -1, 0, 4, 5, -1, 1,
    5, 4, -1,
];

fn print_answer(rt: &impl Print, answer: Result<Cut, CutRefusal>) -> io::Result<()> {
    let [code, place, faces, corners, vertices, edges, points] = cut::numbers(answer);
    println!(rt; "{code} {place} {faces} {corners} {vertices} {edges} {points}")
}

// The text of a list, where it is short.
fn print_list(rt: &impl Print, list: &[i32]) -> io::Result<()> {
    let mut out = [0u8; 256];
    let n = text::write(list, &mut out).unwrap_or(0);
    rt.write_all(&out[..n])?;
    rt.write_all(b"\n")
}

fn print_classes(rt: &impl Print, classes: &[u8]) -> io::Result<()> {
    for class in classes {
        print!(rt; "{class} ")?;
    }
    rt.write_all(b"\n")
}

// How many words are 7.
fn count_sevens(work: &[u32]) -> usize {
    work.iter().filter(|word| **word == 7).count()
}

// The first entries of a list, with one more.
fn print_first(rt: &impl Print, list: &[i32], n: usize) -> io::Result<()> {
    if let Some(first) = list.get(..=n) {
        print_list(rt, first)?;
    }
    Ok(())
}

fn show_cut(rt: &impl Print, list: &[i32], n: usize) -> io::Result<()> {
    let mut new_list = [7i32; 40];
    let mut map = [7i32; 40];
    let mut work = [7u32; 160];
    let answer = cut::cut(list, n, &mut new_list, &mut map, &mut work);
    let vertices = answer.map_or(0, |made| made.vertices);
    print_answer(rt, answer)?;
    print_first(rt, &new_list, list.len())?;
    print_first(rt, &map, vertices)?;
    println!(rt; "{}", count_sevens(&work))
}

fn show_classes(rt: &impl Print, list: &[i32], n: usize) -> io::Result<()> {
    let mut classes = [7u8; 12];
    let mut work = [7u32; 160];
    let (code, place) = match cut::classes(list, n, &mut classes, &mut work) {
        Ok(()) => (0, 0),
        Err(refusal) => (refusal.code(), refusal.place()),
    };
    println!(rt; "{code} {place} {}", count_sevens(&work))?;
    print_classes(rt, &classes)
}

fn show(rt: &impl Print, list: &[i32], n: usize) -> io::Result<()> {
    show_cut(rt, list, n)?;
    show_classes(rt, list, n)
}

// A face with its end.
fn face(a: usize, b: usize) -> [i32; 4]
    requires { (a < 2 ^ 31) × (b < 2 ^ 31) }
{
    [0, a as i32, b as i32, -1]
}

// 16,384 faces on the edge between the vertices 0 and 1.
fn fill_book(faces: &mut [[i32; 4]; FACES]) {
    for (k, put) in faces.iter_mut().enumerate() {
        *put = face(1, k + 2);
    }
}

// 16,383 faces round the vertex 0 in an order in which parents make long ways: with faces x, r and y by turns, first every r
// backwards, then every y, then every x. A last face stands apart.
fn fill_fan(faces: &mut [[i32; 4]; FACES]) {
    // kept: the index, since each turn puts three faces far apart.
    for k in 0..5461 {
        let at = 3 * k;
        faces[5460 - k] = face(at + 2, at + 3);
        faces[5461 + k] = face(at + 3, at + 4);
        faces[10922 + k] = face(at + 1, at + 2);
    }
    faces[FACES - 1] = face(16390, 16391);
}

// Cuts a list of 65,536 entries, and prints the seven numbers, the first entries and how many words of work were kept.
fn show_large(
    rt: &impl Print,
    list: &[i32],
    n: usize,
    new_list: &mut [i32],
    map: &mut [i32],
    work: &mut [u32],
) -> io::Result<()> {
    print_answer(rt, cut::cut(list, n, new_list, map, work))?;
    print_first(rt, new_list, 20)?;
    print_first(rt, map, 20)?;
    println!(rt; "{}", count_sevens(work))
}

fn large(rt: &impl Print) -> io::Result<()> {
    let mut faces = [[-1i32; 4]; FACES];
    let mut new_list = [7i32; LIMIT];
    let mut map = [7i32; LIMIT];
    let mut work = [7u32; 3 * LIMIT];
    fill_book(&mut faces);
    show_large(
        rt,
        faces.as_flattened(),
        16386,
        &mut new_list,
        &mut map,
        &mut work,
    )?;
    fill_fan(&mut faces);
    show_large(
        rt,
        faces.as_flattened(),
        16392,
        &mut new_list,
        &mut map,
        &mut work,
    )
}

fn accepted(rt: &impl Print) -> io::Result<()> {
    show(rt, &[], 0)?;
    show(rt, &[7, 3, 9, -1], 10)?;
    show(rt, &[0, 1, 2, -1, 2, 1, 3, -1], 4)?;
    show(rt, &[0, 1, 2, -1, 1, 2, 3], 4)?;
    show(rt, &[0, 1, 2, -1, 0, 3, 4, -1], 5)?;
    show(rt, &[0, 1, 2, -1, 0, 1, 3, -1, 0, 1, 4, -1], 5)?;
    show(rt, &BODIES, 6)?;
    show(rt, &[0, 1, 2, -1, 0, 2, 1, -1], 3)
}

fn refused(rt: &impl Print) -> io::Result<()> {
    show(rt, &[0, 1, -1], 2)?;
    show(rt, &[-1], 0)?;
    show(rt, &[0, 1, 2, -1, -1], 3)?;
    show(rt, &[0, 1, 5, -1], 5)?;
    show(rt, &[0, 1, 5, -1], 6)?;
    show(rt, &[0, 0, -2], 3)
}

fn main(rt: HostRuntime) -> io::Result<()> {
    accepted(&rt)?;
    refused(&rt)?;
    large(&rt)
}
