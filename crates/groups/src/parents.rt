// The parents of the corners, lent to join groups: each corner's parent is in its group and not after it.
ghost use Rattle.std.specs.Prelude.{◌≡◌, ◌<◌, ◌^◌, length};
ghost use Rattle.groups.specs.Groups.{merge};
ghost use Rattle.groups.specs.Forest.{at, Descends, Climbs, link};

#[derive(Drop)]
pub struct Parents<'a> {
    pub of: &'a mut [u32],
    pub ghost few: { length of.now < 2 ^ 32 },
    pub ghost down: { Descends of.now 0 },
}

impl Parents<'_> {
    ghost use Rattle.groups.specs.Parents.{Joins};

    // The parent of the corner x.
    fn parent(&self, x: usize) -> usize
        requires { x < length self.now.of.now }
        ensures { result ≡ at self.now.of.now x }
    {
        self.of[x] as usize
    }

    // The corner at which the way from x over parents ends. It only reads. Most ways have at most two steps: those two are taken
    // without a test, since how many there are cannot be guessed.
    fn root(&self, x: usize) -> usize
        requires { x < length self.now.of.now }
        ensures { Climbs self.now.of.now 0 x result }
    {
        let near = self.parent(x);
        let mut r = self.parent(near);
        while self.parent(r) < r {
            r = self.parent(r);
        }
        r
    }

    // Joins the groups of the corners x and y: the later of their two roots gets the earlier for its parent. Which of them is the
    // earlier cannot be guessed, so `min` and `max` stand where a branch might.
    pub fn join(&mut self, x: usize, y: usize)
        requires { (x < length self.old.of.now) × (y < length self.old.of.now) }
        ensures { Joins self.old self.new (λ labels. merge labels (link x y)) }
    {
        let a = self.root(x);
        let b = self.root(y);
        let last = a.max(b);
        self.of[last] = a.min(b) as u32;
    }
}
