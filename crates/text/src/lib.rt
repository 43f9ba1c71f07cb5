// The text of an index list: reading and writing.
// It stands on `list` for the limits and on `number`; programs and theorems may use it.
#![tactic(auto)]

mod reader;
mod writer;

ghost use Rattle.std.specs.Prelude.{◌≡◌, length};
ghost use Rattle.text.specs.Reading.{read_of, read_into, read_code, read_place, read_told, read_numbers, read_fault};
ghost use Rattle.text.specs.Writing.{write_of, write_into, write_code, write_place, write_told};

use list::{IndexList, Refusal};
use number::NumberFault;
use reader::Reader;

// Why a text is refused, with the place of its leftmost fault.
// kept: variants of its own beside those of `NumberFault`, since a bracket or the text's end can be not of the form too.
#[derive(Clone, Copy, Debug, PartialEq, Eq)]
pub enum ReadFault {
    NotOfTheForm(usize),
    OutOfRange(usize),
    TooMany(usize),
}

// Why a list is not written; a buffer with no room is told the length that the text needs.
#[derive(Clone, Copy, Debug, PartialEq, Eq)]
pub enum WriteFault {
    TooLong,
    NoRoom(usize),
}

impl Refusal for ReadFault {
    ghost code_of = { read_code };

    ghost place_of = { read_place };

    fn code(self) -> u32 {
        match self {
            ReadFault::NotOfTheForm(_) => 11,
            ReadFault::OutOfRange(_) => 12,
            ReadFault::TooMany(_) => 13,
        }
    }

    fn place(self) -> usize {
        match self {
            ReadFault::NotOfTheForm(place)
            | ReadFault::OutOfRange(place)
            | ReadFault::TooMany(place) => place,
        }
    }
}

impl From<NumberFault> for ReadFault {
    ghost from_gives = { λ f e. e ≡ read_fault f };

    fn from(fault: NumberFault) -> ReadFault {
        match fault {
            NumberFault::NotOfTheForm(place) => ReadFault::NotOfTheForm(place),
            NumberFault::OutOfRange(place) => ReadFault::OutOfRange(place),
        }
    }
}

impl Refusal for WriteFault {
    ghost code_of = { write_code };

    ghost place_of = { write_place };

    fn code(self) -> u32 {
        match self {
            WriteFault::TooLong => 1,
            WriteFault::NoRoom(_) => 15,
        }
    }

    fn place(self) -> usize {
        match self {
            WriteFault::TooLong => 0,
            WriteFault::NoRoom(needed) => needed,
        }
    }
}

// Reads the text into the start of the list and answers how many entries it read.
// Refused by 11, 12 or 13 at the leftmost fault; a refusal writes no entry, so a first pass only looks.
pub fn read(text: &[u8], list: &mut [i32]) -> Result<usize, ReadFault>
    ensures value { read_told result ≡ read_of text.now (length list.old) }
    ensures list_after { list.new ≡ read_into text.now list.old }
{
    let reader = Reader::open(text)?;
    let entries = reader.look(list.len().min(IndexList::MAX_ENTRIES))?;
    reader.fill(&mut list[..entries]);
    Ok(entries)
}

// The three numbers of a reading's answer in document 01's order; a refusal has no entries.
pub fn read_numbers(answer: Result<usize, ReadFault>) -> [u64; 3]
    ensures { result ≡ read_numbers (read_told answer) }
{
    match answer {
        Ok(entries) => [0, 0, entries as u64],
        Err(fault) => [u64::from(fault.code()), fault.place() as u64, 0],
    }
}

// Writes the list's text to the start of the buffer and answers its length.
// Refused by 1 where the list is too long, and by 15 with the length needed where the buffer is shorter than the text.
pub fn write(list: &[i32], text: &mut [u8]) -> Result<usize, WriteFault>
    ensures value { write_told result ≡ write_of list.now (length text.old) }
    ensures text_after { text.new ≡ write_into list.now text.old }
{
    if IndexList::MAX_ENTRIES < list.len() {
        return Err(WriteFault::TooLong);
    }
    let needed = writer::text_length(list);
    if text.len() < needed {
        return Err(WriteFault::NoRoom(needed));
    }
    writer::put_text(list, text);
    Ok(needed)
}
