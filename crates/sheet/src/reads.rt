// A sheet that opens, and its words read where they stand: no bound is tested and no sign, since a sheet that opens has passed both tests.
ghost use Rattle.std.specs.Prelude.{◌≡◌, ◌≢◌, ◌<◌, pos, ◌≤ℤ◌, length, MatchResult};
ghost use Rattle.words.specs.Word.{at, num};
ghost use Rattle.plane.specs.Point.{id_at};
ghost use Rattle.sheet.specs.Order.{order_of};
ghost use Rattle.sheet.specs.Nodes.{level_of, first_of, count_of};
ghost use Rattle.sheet.specs.Places.{spot_of, box_of, points_of};
ghost use Rattle.sheet.specs.Find.{position_of};
ghost use Rattle.sheet.specs.Layout.{points, nodes};
ghost use Rattle.sheet.specs.Limits.{form1};
ghost use Rattle.sheet.specs.Open.{open_no, sheet_no, Opens};

use plane::{Boxed, Spot};

// The words of a sheet that opens, and how many points and nodes they have.
#[derive(Clone, Copy)]
pub struct Sheet<'a> {
    pub words: &'a [i32],
    pub n: usize,
    pub m: usize,
    ghost opens: { Opens words.now n m },
}

// The word at an index.
fn word(s: &[i32], k: usize) -> i64
    requires { k < length s.now }
    ensures { result ≡ at s.now k }
{
    s[k] as i64
}

// The count at an index.
pub(crate) fn count(s: &[i32], k: usize) -> usize
    requires { (k < length s.now) × (pos 0 ≤ℤ at s.now k) }
    ensures value { result ≡ num (at s.now k) }
    ensures upper_bound { result < 2147483648 }
{
    s[k] as usize
}

impl<'a> Sheet<'a> {
    // Words that are known to be a sheet, with the counts in them.
    pub fn known(words: &'a [i32]) -> Sheet<'a>
        requires { Opens words.now (points words.now) (nodes words.now) }
        ensures { (result.words.now ≡ words.now) × (result.n ≡ points words.now) × (result.m ≡ nodes words.now) }
    {
        let len = words.len();
        Sheet {
            words,
            n: words::num_at(words, len - 4),
            m: words::num_at(words, len - 3),
        }
    }

    // The words as a sheet that opens, or the number of the first refusal that applies to them.
    pub fn open(words: &'a [i32]) -> Result<Sheet<'a>, u32>
        ensures { MatchResult result (λ s. (sheet_no words.now ≡ 0) × (s.words.now ≡ words.now)) (λ k. (k ≡ sheet_no words.now) × (k ≢ 0)) }
    {
        match crate::open_no(words) {
            0 => Ok(Sheet::known(words)),
            no => Err(no),
        }
    }

    // The same of a sheet of form 1: one of form 2 is refused by 2.
    pub fn open_first(words: &'a [i32]) -> Result<Sheet<'a>, u32>
        ensures { MatchResult result (λ s. (open_no form1 words.now ≡ 0) × (s.words.now ≡ words.now)) (λ k. (k ≡ open_no form1 words.now) × (k ≢ 0)) }
    {
        match crate::open_first(words) {
            0 => Ok(Sheet::known(words)),
            no => Err(no),
        }
    }

    // The id of the point at position i.
    pub fn id_at(self, i: usize) -> u32
        requires { i < self.n }
        ensures { result ≡ id_at (points_of self.entry.words.now) i }
    {
        count(self.words, 3 * i) as u32
    }

    // Where the point at position i stands.
    pub fn spot_at(self, i: usize) -> Spot
        requires { i < self.n }
        ensures { result ≡ spot_of self.entry.words.now i }
    {
        Spot {
            x: word(self.words, 3 * i + 1),
            y: word(self.words, 3 * i + 2),
        }
    }

    // The position standing at place r.
    pub fn order_at(self, r: usize) -> usize
        requires { r < self.n }
        ensures { result ≡ order_of self.entry.words.now self.entry.n r }
    {
        count(self.words, 3 * self.n + r)
    }

    // The level of node j, and the first and the number of what it covers.
    pub fn level_at(self, j: usize) -> usize
        requires { j < self.m }
        ensures { result ≡ level_of self.entry.words.now self.entry.n j }
    {
        count(self.words, 5 * self.n + 7 * j)
    }

    pub fn first_at(self, j: usize) -> usize
        requires { j < self.m }
        ensures { result ≡ first_of self.entry.words.now self.entry.n j }
    {
        count(self.words, 5 * self.n + 7 * j + 1)
    }

    pub fn count_at(self, j: usize) -> usize
        requires { j < self.m }
        ensures { result ≡ count_of self.entry.words.now self.entry.n j }
    {
        count(self.words, 5 * self.n + 7 * j + 2)
    }

    // The box of node j.
    pub fn box_at(self, j: usize) -> Boxed
        requires { j < self.m }
        ensures { result ≡ box_of self.entry.words.now self.entry.n j }
    {
        let a = 5 * self.n + 7 * j + 3;
        Boxed {
            xmin: word(self.words, a + 0),
            ymin: word(self.words, a + 1),
            xmax: word(self.words, a + 2),
            ymax: word(self.words, a + 3),
        }
    }

    // The position of the record with this id, or n where none has it.
    pub fn position_of(self, id: u32) -> usize
        ensures { result ≡ position_of (points_of self.entry.words.now) id }
    {
        for j in 0..self.n {
            if self.id_at(j) == id {
                return j;
            }
        }
        self.n
    }
}
