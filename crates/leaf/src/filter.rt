// The filter walk of a leaf run, on lent words: a kept set for each chamber of the leaf, one behind the other.
// In which order those that rule out are asked is free: the other chambers of the leaf first, since they are few.
ghost use Rattle.std.specs.Prelude.{◌≡◌, not, ◌&&◌, ◌+◌, ◌≤◌, ◌<◌, eqb};
ghost use Rattle.plane.specs.Rule.{SpotIn, BoxIn, drops_box};
ghost use Rattle.sheet.specs.Order.{order_of};
ghost use Rattle.sheet.specs.Nodes.{level_of, count_of};
ghost use Rattle.sheet.specs.Boxes.{tree_size};
ghost use Rattle.walk.specs.Walk.{in_turn};
ghost use Rattle.walk.specs.FilterWalk.{so_far};
ghost use Rattle.words.specs.All.{all_b};
ghost use Rattle.leaf.specs.LeafWalk.{some_b, chamber_spot, ruled_out, weigh, skips, leaf_node, leaf_kept};
ghost use Rattle.leaf.specs.Room.{Leaf, Sets};

use plane::{Boxed, Spot};
use sheet::Sheet;

// What stays the same all through a run: the sheets P and Q, the leaf v of Q with the places that it covers, and the words of a kept set.
#[derive(Clone, Copy)]
struct Job<'a> {
    p: Sheet<'a>,
    q: Sheet<'a>,
    v: usize,
    first: usize,
    count: usize,
    words: usize,
    ghost leaf: { Leaf q.words.now q.n q.m v first count },
}

impl<'a> Job<'a> {
    // Where the chamber at place k of the leaf stands.
    fn chamber(self, k: usize) -> Spot
        requires { k < self.count }
        ensures { (result ≡ chamber_spot self.entry.q.words.now self.entry.v k) × SpotIn result }
    {
        let at = self.q.order_at(self.first + k);
        self.q.spot_at(at)
    }

    // Whether the chamber at place h is another than k, and drops the box o, for a.
    fn other_shuts(self, k: usize, a: Spot, o: Boxed, h: usize) -> bool
        requires { SpotIn a × BoxIn o × (h < self.count) }
        ensures { result ≡ (not (eqb h k) && drops_box a (chamber_spot self.entry.q.words.now self.entry.v h) o) }
    {
        if h == k {
            return false;
        }
        let p = self.chamber(h);
        plane::drops_box(a, p, o)
    }

    // Whether another chamber of the leaf than k drops the box o, for a.
    fn others_shut(self, k: usize, a: Spot, o: Boxed) -> bool
        requires { SpotIn a × BoxIn o }
        ensures { result ≡ some_b self.entry.count (λ h. not (eqb h k) && drops_box a (chamber_spot self.entry.q.words.now self.entry.v h) o) }
    {
        for h in 0..self.count {
            if self.other_shuts(k, a, o, h) {
                return true;
            }
        }
        false
    }

    // Whether the box o is ruled out for the chamber k, which stands at a.
    fn rules_box(self, k: usize, a: Spot, o: Boxed, bits: &[u64]) -> bool
        requires { (k < self.count) × SpotIn a × BoxIn o × Sets bits.now self.words self.p.n }
        ensures { result ≡ ruled_out (chamber_spot self.entry.q.words.now self.entry.v) self.entry.count self.entry.words self.entry.p.words.now self.entry.p.n (λ s. drops_box a s o) k bits.now }
    {
        if self.others_shut(k, a, o) {
            return true;
        }
        let from = self.words * k;
        let to = from + self.words;
        let own = &bits[from..to];
        walk::filter::seek_all(self.p, a, o, own) < self.p.n
    }

    // Position i is kept for the chamber k, unless it is ruled out for it.
    fn weigh_at(self, i: usize, k: usize, bits: &mut [u64])
        requires { (i < self.p.n) × (k < self.count) × Sets bits.old self.words self.p.n }
        ensures { bits.new ≡ weigh (chamber_spot self.entry.q.words.now self.entry.v) self.entry.count self.entry.words self.entry.p.words.now self.entry.p.n i k bits.old }
    {
        let a = self.chamber(k);
        let z = self.p.spot_at(i);
        if self.rules_box(k, a, plane::box_at(z), bits) {
            return;
        }
        bits::insert(bits, 64 * (self.words * k) + i);
    }

    // Position i, for each chamber in turn.
    fn weigh_all(self, i: usize, bits: &mut [u64])
        requires { (i < self.p.n) × Sets bits.old self.words self.p.n }
        ensures { bits.new ≡ in_turn (weigh (chamber_spot self.entry.q.words.now self.entry.v) self.entry.count self.entry.words self.entry.p.words.now self.entry.p.n i) self.entry.count 0 bits.old }
    {
        for k in 0..self.count {
            self.weigh_at(i, k, bits);
        }
    }

    // The places of a leaf of P, in turn.
    fn leaf_places(self, first: usize, count: usize, bits: &mut [u64])
        requires { (first + count ≤ self.p.n) × Sets bits.old self.words self.p.n }
        ensures { bits.new ≡ in_turn (λ r. in_turn (weigh (chamber_spot self.entry.q.words.now self.entry.v) self.entry.count self.entry.words self.entry.p.words.now self.entry.p.n (order_of self.entry.p.words.now self.entry.p.n r)) self.entry.count 0) count first bits.old }
    {
        for i in 0..count {
            let at = self.p.order_at(first + i);
            self.weigh_all(at, bits);
        }
    }

    // Whether each chamber of the leaf skips the box of node u.
    fn skips_all(self, u: usize, bits: &[u64]) -> bool
        requires { (u < self.p.m) × Sets bits.now self.words self.p.n }
        ensures { result ≡ all_b self.entry.count (skips (chamber_spot self.entry.q.words.now self.entry.v) self.entry.count self.entry.words self.entry.p.words.now self.entry.p.n u bits.now) }
    {
        let o = self.p.box_at(u);
        for k in 0..self.count {
            let a = self.chamber(k);
            if !self.rules_box(k, a, o, bits) {
                return false;
            }
        }
        true
    }

    // The walk from node u of P down, on from the kept sets and the nodes opened so far; the nodes opened after it.
    fn leaf_node(self, u: usize, bits: &mut [u64], opened: u64) -> u64
        requires { (u < self.p.m) × Sets bits.old self.words self.p.n × (opened + tree_size self.p.words.now self.p.n (level_of self.p.words.now self.p.n u) u < 9223372036854775808) }
        ensures { so_far bits.new result ≡ leaf_node (chamber_spot self.entry.q.words.now self.entry.v) self.entry.count self.entry.words self.entry.p.words.now self.entry.p.n (level_of self.entry.p.words.now self.entry.p.n u) u (so_far bits.old opened) }
    {
        if self.skips_all(u, bits) {
            return opened;
        }
        let level = self.p.level_at(u);
        let first = self.p.first_at(u);
        let count = self.p.count_at(u);
        let mut so = opened + 1;
        if level == 0 {
            self.leaf_places(first, count, bits);
            return so;
        }
        for i in 0..count {
            so = self.leaf_node(first + i, bits, so);
        }
        so
    }
}

// The filter walk of all of P for the chambers of the leaf v of Q: the lent words are the kept sets, and the answer is the nodes opened.
pub fn leaf_kept(p: Sheet<'_>, q: Sheet<'_>, v: usize, words: usize, bits: &mut [u64]) -> u64
    requires { (v < q.m) × (level_of q.words.now q.n v ≡ 0) × Sets bits.old words p.n }
    ensures { (bits.new ≡ (leaf_kept (chamber_spot q.entry.words.now v) (count_of q.entry.words.now q.entry.n v) words p.entry.words.now).bits) × (result ≡ (leaf_kept (chamber_spot q.entry.words.now v) (count_of q.entry.words.now q.entry.n v) words p.entry.words.now).opened) }
{
    bits::clear(bits);
    if p.m == 0 {
        return 0;
    }
    let first = q.first_at(v);
    let count = q.count_at(v);
    let j = Job {
        p,
        q,
        v,
        first,
        count,
        words,
    };
    j.leaf_node(p.m - 1, bits, 0)
}
