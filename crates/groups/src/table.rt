// The edge table in the work buffer, lent to be read: for each corner the next one of its face, its vertex, and what it meets across
// its edge.
ghost use Rattle.std.specs.Prelude.{◌≡◌, ℕ, ◌+◌, ◌*◌, ◌<◌, ◌≤◌, ◌^◌, ◌==◌, length};
ghost use Rattle.groups.specs.Forest.{at, later_mate_of};

// A block of words each for the next corners, the vertices and the mates; what stands behind them is not read.
// The blocks are one slice, since what group_list, mark and singular_ends promise (Grouped, VertexWords, EndsCounted) tells the words
// by their places in the whole buffer; a slice for each block is begun in docs/design-left.patch.
#[derive(Clone, Copy)]
pub struct EdgeTable<'a> {
    pub words: &'a [u32],
    pub corners: usize,
    pub ghost room: { 3 * corners ≤ length words.now },
    pub ghost few: { corners < 2 ^ 30 },
    pub ghost nexts: { (e : ℕ) → e < corners → at words.now e < corners },
}

impl EdgeTable<'_> {
    // The corner after e in its face.
    pub fn next(self, e: usize) -> usize
        requires { e < self.corners }
        ensures { result ≡ at self.entry.words.now e }
    {
        self.words[e] as usize
    }

    // The vertex of the corner e.
    pub fn vertex(self, e: usize) -> usize
        requires { e < self.corners }
        ensures { result ≡ at self.entry.words.now (self.entry.corners + e) }
    {
        self.words[self.corners + e] as usize
    }

    // The vertices at the two ends of the edge that starts at e: its own, and that of the next corner.
    pub fn ends(self, e: usize) -> (usize, usize)
        requires { e < self.corners }
        ensures { (result.0 ≡ at self.entry.words.now (self.entry.corners + e)) × (result.1 ≡ at self.entry.words.now (self.entry.corners + at self.entry.words.now e)) }
    {
        (self.vertex(e), self.vertex(self.next(e)))
    }

    // The word for the mate of e: e itself where its edge has one face, the other corner where it has two, the number of corners
    // where it has more. The three functions that follow alone read it.
    // kept: no enum of the three cases, for it misses the bar of speed: it was written and proved, and cost 0.3 to 0.9 ns of the 17 to
    // 28 that a corner takes.
    fn mate_word(self, e: usize) -> usize
        requires { e < self.corners }
        ensures { result ≡ at self.entry.words.now (2 * self.entry.corners + e) }
    {
        self.words[2 * self.corners + e] as usize
    }

    // Whether the edge that starts at e has one face.
    pub fn is_boundary(self, e: usize) -> bool
        requires { e < self.corners }
        ensures { result ≡ (at self.entry.words.now (2 * self.entry.corners + e) == e) }
    {
        self.mate_word(e) == e
    }

    // Whether it has three and more.
    pub fn is_singular(self, e: usize) -> bool
        requires { e < self.corners }
        ensures { result ≡ (at self.entry.words.now (2 * self.entry.corners + e) == self.entry.corners) }
    {
        self.mate_word(e) == self.corners
    }

    // The other corner where it has two, and that corner is the later.
    pub fn later_mate(self, e: usize) -> Option<usize>
        requires { e < self.corners }
        ensures { result ≡ later_mate_of self.entry.words.now self.entry.corners e }
    {
        let mate = self.mate_word(e);
        (e < mate && mate < self.corners).then_some(mate)
    }
}
