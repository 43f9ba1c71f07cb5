// The answers of the cut and of the class call: counts, refusals, and the numbers in which they are told.
ghost use Rattle.std.specs.Prelude.{◌≡◌};
ghost use Rattle.cut.specs.Cut.{cut_numbers};
ghost use Rattle.cut.specs.Told.{cut_code, cut_place, cut_answer, cut_told, classes_code, classes_place};
ghost use Rattle.cut.specs.declared.answer.CutRefusal.TheVariants as Cut·;
ghost use Rattle.cut.specs.declared.answer.ClassesRefusal.TheVariants as Classes·;

use list::{Fault, Refusal};

// What the cut of a valid list counts: of the list, of the new list, and of what was singular.
#[derive(Clone, Copy, Debug, PartialEq, Eq, Default)]
pub struct Cut {
    pub faces: usize,
    pub corners: usize,
    pub vertices: usize,
    pub singular_edges: usize,
    pub singular_vertices: usize,
}

// Why a list is not cut: what the check refuses, or the length that a buffer needs.
#[derive(Clone, Copy, Debug, PartialEq, Eq)]
pub enum CutRefusal {
    Invalid(Fault),
    NewListShort(usize),
    MapShort(usize),
    WorkShort(usize),
}

impl Refusal for CutRefusal {
    ghost code_of = { cut_code };

    ghost place_of = { cut_place };

    fn code(self) -> u32 {
        match self {
            CutRefusal::Invalid(fault) => fault.code(),
            CutRefusal::NewListShort(_) => 6,
            CutRefusal::MapShort(_) => 7,
            CutRefusal::WorkShort(_) => 9,
        }
    }

    fn place(self) -> usize {
        match self {
            CutRefusal::Invalid(fault) => fault.place(),
            CutRefusal::NewListShort(needed)
            | CutRefusal::MapShort(needed)
            | CutRefusal::WorkShort(needed) => needed,
        }
    }
}

impl From<Fault> for CutRefusal {
    ghost from_gives = { λ fault refusal. refusal ≡ Cut·.Invalid fault };

    fn from(fault: Fault) -> CutRefusal {
        CutRefusal::Invalid(fault)
    }
}

// Why the vertices of a list are not classed.
// kept: beside `CutRefusal`, since one enum for both would have cases that one call or the other never gives.
#[derive(Clone, Copy, Debug, PartialEq, Eq)]
pub enum ClassesRefusal {
    Invalid(Fault),
    ClassesShort(usize),
    WorkShort(usize),
}

impl Refusal for ClassesRefusal {
    ghost code_of = { classes_code };

    ghost place_of = { classes_place };

    fn code(self) -> u32 {
        match self {
            ClassesRefusal::Invalid(fault) => fault.code(),
            ClassesRefusal::ClassesShort(_) => 8,
            ClassesRefusal::WorkShort(_) => 9,
        }
    }

    fn place(self) -> usize {
        match self {
            ClassesRefusal::Invalid(fault) => fault.place(),
            ClassesRefusal::ClassesShort(needed) | ClassesRefusal::WorkShort(needed) => needed,
        }
    }
}

impl From<Fault> for ClassesRefusal {
    ghost from_gives = { λ fault refusal. refusal ≡ Classes·.Invalid fault };

    fn from(fault: Fault) -> ClassesRefusal {
        ClassesRefusal::Invalid(fault)
    }
}

// The seven numbers of an answer in document 01's order; a refusal has no counts.
pub fn numbers(answer: Result<Cut, CutRefusal>) -> [u64; 7]
    ensures { result ≡ cut_numbers (cut_told answer) }
{
    let (code, place, cut) = match answer {
        Ok(cut) => (0, 0, cut),
        Err(refusal) => (refusal.code(), refusal.place(), Cut::default()),
    };
    seven_numbers(code, place, cut)
}

// Any seven numbers in document 01's order: a code, a place and counts.
pub fn seven_numbers(code: u32, place: usize, cut: Cut) -> [u64; 7]
    ensures { result ≡ cut_numbers (cut_answer code place cut) }
{
    [
        u64::from(code),
        place as u64,
        cut.faces as u64,
        cut.corners as u64,
        cut.vertices as u64,
        cut.singular_edges as u64,
        cut.singular_vertices as u64,
    ]
}
