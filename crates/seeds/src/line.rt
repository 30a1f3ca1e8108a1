// The droppers in hand: places of records, at most 24. Which they are, how many and in what order is free: only speed hangs on it.
ghost use Rattle.std.specs.Prelude.{ℕ, ◌≤◌, ◌<◌};
ghost use Rattle.plane.specs.Rule.{SpotIn};
ghost use Rattle.seeds.specs.Places.{place_at};

use plane::Spot;

// The places of the droppers are the first `count` of those at hand; `last` is the number of the one that dropped last.
#[derive(Drop)]
pub(crate) struct Line {
    at: [Spot; 24],
    pub count: usize,
    pub last: usize,
    ghost few: { count ≤ 24 },
    ghost in_range: { (k : ℕ) → k < count → SpotIn (place_at at k) },
}

// Whether a dropper at d stays where z comes: z does not drop it, and does not stand there too.
fn stays(q: Spot, z: Spot, d: Spot) -> bool
    requires { SpotIn q × SpotIn z × SpotIn d }
{
    !plane::does_block(q, d, z) & !plane::is_same(d, z)
}

impl Line {
    ghost use Rattle.std.specs.Prelude.{◌≡◌, true};
    ghost use Rattle.seeds.specs.Line.{Lined, Among, Known, At, Drops};

    // No dropper yet.
    pub(crate) fn new() -> Line
        ensures { result.count ≡ 0 }
    {
        Line {
            at: [Spot { x: 0, y: 0 }; 24],
            count: 0,
            last: 0,
        }
    }

    // A dropper at whose place the test holds, the one that dropped last tried first; their number where it holds at none.
    pub(crate) fn dropper<F: Fn(Spot) -> bool>(&self, test: F) -> usize
        requires { Lined (F.pre test) self.now }
        ensures { Drops (λ z. F.post test z true) self.now result }
    {
        if self.last < self.count && test(self.at[self.last]) {
            return self.last;
        }
        for k in 0..self.count {
            if test(self.at[k]) {
                return k;
            }
        }
        self.count
    }

    // The droppers that stay where z comes are moved to the front, and the others are none any more.
    fn sift(&mut self, q: Spot, z: Spot)
        requires { SpotIn q × SpotIn z }
        ensures { Lined (Among self.old) self.new }
    {
        let mut to: usize = 0;
        for k in 0..self.count {
            let d = self.at[k];
            if stays(q, z, d) {
                self.at[to] = d;
                to += 1;
            }
        }
        self.count = to;
    }

    // Of 24 droppers the farthest from q.
    fn farthest(&self, q: Spot) -> usize
        requires { SpotIn q × (self.now.count ≡ 24) }
        ensures { result < 24 }
    {
        let mut far: usize = 0;
        let mut most: u64 = 0;
        for (k, z) in self.at.iter().enumerate() {
            let d = plane::diameter(q, *z);
            if d > most {
                most = d;
                far = k;
            }
        }
        far
    }

    // z is a dropper from now on, and those that it drops are none any more; where there are 24 the farthest goes. At q's own place nothing drops, and z is passed over.
    pub(crate) fn join(&mut self, q: Spot, z: Spot)
        requires { SpotIn q × SpotIn z }
        ensures { Lined (Known (At z) self.old) self.new }
    {
        if plane::is_same(z, q) {
            return;
        }
        self.sift(q, z);
        if self.count < 24 {
            self.at[self.count] = z;
            self.count += 1;
            return;
        }
        let far = self.farthest(q);
        if plane::diameter(q, z) < plane::diameter(q, self.at[far]) {
            self.at[far] = z;
        }
    }
}
