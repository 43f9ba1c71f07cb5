// The text reader: what stands at a place, the pass that only looks, and the pass that fills.
ghost use Rattle.std.specs.Prelude.{◌≡◌, ℕ, false, ◌+◌, length, take, drop, IfOk, IfErr};
ghost use Rattle.text.specs.Tokens.{tokens_at};
ghost use Rattle.list.specs.Written.{over};
ghost use Rattle.text.specs.Reading.{read_of, read_told, behind, inside, values_of};
ghost use Rattle.text.specs.Steps.{blank, Opened, item_of, item_told};

use crate::ReadFault;
use number::bytes::{CLOSE, OPEN, in_comment, in_gap};
use number::{NumberRead, read_number};

// A text and the place that the reader has come to.
#[derive(Clone, Copy)]
pub struct Reader<'a> {
    text: &'a [u8],
    at: usize,
}

// A number inside the brackets, with the place of its first byte.
#[derive(Clone, Copy)]
struct Entry {
    place: usize,
    value: i32,
}

// The first place from `at` on that holds no separator and no byte of a comment, or the text's length.
fn skip(text: &[u8], at: usize) -> usize
    ensures { result ≡ at + blank false (drop at text.now) }
{
    let Some(rest) = text.get(at..) else {
        return at;
    };
    let mut comment = false;
    for (i, &b) in rest.iter().enumerate() {
        if !in_gap(comment, b) {
            return at + i;
        }
        comment = in_comment(comment, b);
    }
    text.len()
}

impl<'a> Reader<'a> {
    // The reader behind the opening bracket.
    pub fn open(text: &'a [u8]) -> Result<Reader<'a>, ReadFault>
        ensures text { IfOk result (λ r. r.text.now ≡ text.now) }
        ensures opened { IfOk result (λ r. Opened text.now r.at) }
        ensures refused { IfErr result (λ f. (n : ℕ) → read_of text.now n ≡ read_told (Err f)) }
    {
        let start = skip(text, 0);
        if text.get(start) != Some(&OPEN) {
            return Err(ReadFault::NotOfTheForm(start));
        }
        Ok(Reader {
            text,
            at: start + 1,
        })
    }

    // What stands at the first place from here on that is no separator: a number, or the closing bracket.
    // Inlined into both passes, so that the place and the answer need not go through memory for each number.
    #[inline]
    fn next_entry(&mut self) -> Result<Option<Entry>, ReadFault>
        ensures text { self.new.text.now ≡ self.old.text.now }
        ensures value { item_told self.new.at result ≡ item_of (length self.old.text.now) (tokens_at self.old.text.now self.old.at) }
    {
        let place = skip(self.text, self.at);
        match self.text.get(place) {
            None => Err(ReadFault::NotOfTheForm(self.text.len())),
            Some(&OPEN) => Err(ReadFault::NotOfTheForm(place)),
            Some(&CLOSE) => {
                self.at = place + 1;
                Ok(None)
            }
            Some(_) => {
                // kept: document 01's list of forms wants `let .. else` here, where `?` would do
                let number = read_number(self.text, place);
                let Ok(NumberRead { value, next }) = number else {
                    return Err(number.unwrap_err().into());
                };
                self.at = next;
                Ok(Some(Entry { place, value }))
            }
        }
    }

    // Looks through the text behind the opening bracket and writes nothing: the answer of the whole call.
    pub fn look(mut self, room: usize) -> Result<usize, ReadFault>
        ensures { read_told result ≡ inside (length self.entry.text.now) room 0 (tokens_at self.entry.text.now self.entry.at) }
    {
        let mut entries: usize = 0;
        while let Some(entry) = self.next_entry()? {
            if room <= entries {
                return Err(ReadFault::TooMany(entry.place));
            }
            entries += 1;
        }
        let end = skip(self.text, self.at);
        if end < self.text.len() {
            return Err(ReadFault::NotOfTheForm(end));
        }
        Ok(entries)
    }

    // Writes the first numbers behind the opening bracket into the list, as many as it has entries.
    pub fn fill(mut self, list: &mut [i32])
        ensures { list.new ≡ over (take (length list.old) (values_of (tokens_at self.entry.text.now self.entry.at))) list.old }
    {
        for slot in list.iter_mut() {
            let Ok(Some(entry)) = self.next_entry() else {
                return;
            };
            *slot = entry.value;
        }
    }
}
