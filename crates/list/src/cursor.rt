// The cursor, which goes from face to face.
ghost use Rattle.std.specs.Prelude.{◌≡◌, IfNone};
ghost use Rattle.std.specs.Iterator.{YieldsFirstBy, item_count};
ghost use Rattle.list.specs.Cursor.{face_seen, faces_left, step_told, step_at, StepMade};

// A face of a list: the position where it starts, and its entries without its -1.
#[derive(Clone, Copy)]
pub struct Face<'a> {
    pub start: usize,
    pub entries: &'a [i32],
}

// A place between two faces of a list: the position where the next face starts. It goes from face to face.
#[derive(Clone, Copy)]
pub struct Cursor<'a> {
    pub list: &'a [i32],
    pub at: usize,
}

impl<'a> Cursor<'a> {
    // The face that starts at the cursor, which goes on behind it, or the end of the list, where it stays. A cursor past the end is
    // at the end.
    pub fn step(&mut self) -> Option<Face<'a>>
        ensures steps { YieldsFirstBy face_seen faces_left self.old result self.new }
        ensures told { step_told result self.new.at ≡ step_at self.old.list.now self.old.at }
        ensures stays { IfNone result (self.new.at ≡ self.old.at) }
        ensures same { self.new.list.now ≡ self.old.list.now }
    {
        let list = self.list;
        let start = self.at;
        if list.len() <= start {
            return None;
        }
        let end = start + crate::entry::run_length(&list[start..]);
        self.at = end + 1;
        Some(Face {
            start,
            entries: &list[start..end],
        })
    }
}

impl<'a> Iterator for Cursor<'a> {
    type Item = Face<'a>;

    ghost next_gives = { StepMade };

    ghost remaining = { item_count faces_left };

    fn next(&mut self) -> Option<Face<'a>> {
        self.step()
    }
}
