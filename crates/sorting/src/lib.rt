// Lists in an order: the first k of any list in any order, gathered from its front on, held in an array of sixteen.
#![tactic(auto)]

ghost use Rattle.std.specs.Prelude.{◌≡◌, Bool, ◌≤◌, ◌<◌, [], take};
ghost use Rattle.sorting.specs.Ranking.{put_by, Sorted, Order};
ghost use Rattle.sorting.specs.Firsts.{firsts_of, held_firsts, HeldFirsts, put_among, last_of, enters};

// An order of values: whether one stands before another. Ghost `unused` is what stands in the places where nothing is held.
pub trait Comparison<T: Copy>: Copy {
    ghost unused: { T };

    ghost before: { T → T → Bool };

    fn is_before(self, v: T, w: T) -> bool
        ensures { result ≡ before v w };

    ghost lawful: { Order before };
}

// The first of those passed, in order, and how many: the rows after them are unused.
#[derive(Clone, Copy, Debug, PartialEq, Eq)]
pub struct Firsts<T> {
    pub rows: [T; 16],
    pub count: usize,
}

impl<T: Copy> Firsts<T> {
    // Nothing is held.
    #[tactic(auto, unfolding(crate::specs::Ranking::sixteen))]
    pub fn new(unused: T) -> Self
        ensures { result ≡ firsts_of unused [] }
    {
        Firsts {
            rows: [unused; 16],
            count: 0,
        }
    }

    // The last of k, where k are held.
    pub fn last(&self, k: usize) -> Option<T>
        requires { (1 ≤ k) × (k ≤ 16) }
        ensures { result ≡ last_of k self.now }
    {
        if self.count < k {
            return None;
        }
        Some(self.rows[k - 1])
    }

    // Whether the value v would be among the k: fewer are held, or it stands before the last.
    pub fn enters<O: Comparison<T>>(&self, k: usize, v: T, order: O) -> bool
        requires { (1 ≤ k) × (k ≤ 16) }
        ensures { result ≡ enters O.before O.unused k v self.now }
    {
        self.last(k).is_none_or(|last| order.is_before(v, last))
    }

    // The value v put in its place among the first n, which move up to make room.
    fn put<O: Comparison<T>>(self, n: usize, v: T, order: O) -> Self
        requires { (n < 16) × Sorted O.before (take n self.rows) }
        ensures { result ≡ put_among O.before n v self }
    {
        let mut r = self;
        r.count = n + 1;
        for i in (0..n).rev() {
            let w = r.rows[i];
            if !order.is_before(v, w) {
                r.rows[i + 1] = v;
                return r;
            }
            r.rows[i + 1] = w;
        }
        r.rows[0] = v;
        r
    }

    // The value v is offered to those held, of which the first k stay: one that does not stand before the last of k is dropped at once, and nothing is moved for it.
    pub fn offered<O: Comparison<T>>(&mut self, k: usize, v: T, order: O)
        requires { (1 ≤ k) × (k ≤ 16) × HeldFirsts O.before O.unused k self.old }
        ensures { self.new ≡ firsts_of O.unused (take k (put_by O.before v (held_firsts self.old))) }
    {
        if !self.enters(k, v, order) {
            return;
        }
        *self = self.put(self.count.min(k - 1), v, order);
    }
}
