// The text writer's steps: how long the text is, and the text put into the buffer from its start.
ghost use Rattle.std.specs.Prelude.{◌≡◌, ◌+◌, ◌≤◌, ◌<◌, ◌∷◌, [], length};
ghost use Rattle.list.specs.Limits.{max_entries};
ghost use Rattle.text.specs.Writing.{entry_text, written};
ghost use Rattle.text.specs.Steps.{entry_item, Puts};
ghost use Rattle.number.specs.Steps.{put};

use number::bytes::{CLOSE, MINUS, OPEN};
use number::decimal::{digit_count, put_digits};

// How long an entry is in shortest decimal.
fn entry_length(entry: i32) -> usize
    ensures { (result ≡ length (entry_text entry)) × (result ≤ 21) }
{
    digit_count(u64::from(entry.unsigned_abs())) + usize::from(entry.is_negative())
}

// How long the list's text is: two bytes behind each entry, the comma and the space or, behind the last, for the brackets.
pub fn text_length(list: &[i32]) -> usize
    requires { length list.now ≤ max_entries }
    ensures { result ≡ length (written list.now) }
{
    let entries: usize = list.iter().map(|entry| entry_length(*entry) + 2).sum();
    entries.max(2)
}

// The buffer and the place that the writer has come to.
#[derive(Drop)]
struct Writer<'a> {
    text: &'a mut [u8],
    at: usize,
}

impl Writer<'_> {
    // Puts a byte and comes to the place behind it, as the others do.
    fn put_byte(&mut self, byte: u8)
        requires { self.old.at < length self.old.text.now }
        ensures { Puts self.old self.new (byte ∷ []) }
    {
        self.text[self.at] = byte;
        self.at += 1;
    }

    fn put_entry(&mut self, entry: i32)
        requires { self.old.at + length (entry_text entry) ≤ length self.old.text.now }
        ensures { Puts self.old self.new (entry_text entry) }
    {
        let m = u64::from(entry.unsigned_abs());
        let count = digit_count(m);
        if entry.is_negative() {
            self.put_byte(MINUS);
        }
        put_digits(self.text, self.at, count, m);
        self.at += count;
    }

    // Puts an entry, with a comma and a space where more follow.
    fn put_item(&mut self, entry: i32, more: bool)
        requires { self.old.at + length (entry_item entry more) ≤ length self.old.text.now }
        ensures { Puts self.old self.new (entry_item entry more) }
    {
        self.put_entry(entry);
        if more {
            self.put_byte(b',');
            self.put_byte(b' ');
        }
    }
}

// Puts the list's text at the start of the buffer.
pub fn put_text(list: &[i32], text: &mut [u8])
    requires { length (written list.now) ≤ length text.old }
    ensures { text.new ≡ put 0 (written list.now) text.old }
{
    let mut writer = Writer { text, at: 0 };
    writer.put_byte(OPEN);
    for (i, entry) in list.iter().enumerate() {
        writer.put_item(*entry, i + 1 < list.len());
    }
    writer.put_byte(CLOSE);
}
