// The shortest circles first: of all ring pairs of two sheets the k with the smallest squared size, in order.
#![tactic(auto)]

ghost use Rattle.std.specs.Prelude.{◌≡◌, ◌≤◌, ◌<◌, length};
ghost use Rattle.bits.specs.Set.{none, Holds};
ghost use Rattle.sheet.specs.Places.{points_of};
ghost use Rattle.list.specs.Rows.{row};
ghost use Rattle.list.specs.RingList.{ring_pair, pair_at};
ghost use Rattle.sorting.specs.Ranking.{gathered};
ghost use Rattle.shortest.specs.Order.{shorter};
ghost use Rattle.shortest.specs.Lawful.{shorter_order};
ghost use Rattle.shortest.specs.Answer.{short_given, short_refused, short_answer, short_bits};
ghost use Rattle.shortest.specs.Search.{no_pair, held, search_of, HeldOrdered, bound_of};

use list::{Pair, Terms};
use sheet::Sheet;
use sorting::{Comparison, Firsts};

// What the call answers: 0, how many pairs and the pairs, the unused three zeros; or the number of refusal and zeros.
// Kept: the C interface; `ring_shortest` of ffi hands it to C as it stands.
#[repr(C)]
#[derive(Clone, Copy, Debug, PartialEq, Eq)]
pub struct Shortlist {
    pub number: u32,
    pub count: usize,
    pub pairs: [Pair; 16],
}

// The shortest first: by squared size, then q id, then p id.
#[derive(Clone, Copy)]
struct BySize;

impl Comparison<Pair> for BySize {
    ghost unused = { no_pair };

    ghost before = { shorter };

    ghost lawful = { shorter_order };

    #[tactic(auto, unfolding(crate::specs::Order::shorter))]
    fn is_before(self, v: Pair, w: Pair) -> bool {
        let later = list::is_after(list::key_of(v), list::key_of(w));
        (v.size < w.size) | ((v.size == w.size) & later)
    }
}

// No pair longer than this is among the k: it is the size of the last where k are held, and the greatest size that is taken where fewer are.
fn bound(g: Firsts<Pair>, k: usize) -> u64
    requires { (1 ≤ k) × (k ≤ 16) }
    ensures { result ≡ bound_of k g }
{
    g.last(k).map_or(8_000_000_000_000_000_000, |v| v.size)
}

// The ring pairs of the chamber at position j, one after the other. Those that are longer than the last of k are not looked for.
fn with_chamber(
    p: Sheet<'_>,
    q: Sheet<'_>,
    k: usize,
    j: usize,
    g: Firsts<Pair>,
    bits: &mut [u64],
) -> Firsts<Pair>
    requires { Holds bits.old p.n × (j < q.n) × (1 ≤ k) × (k ≤ 16) × HeldOrdered k g }
    ensures { result ≡ search_of (gathered shorter k (row (ring_pair (points_of p.entry.words.now) (points_of q.entry.words.now)) (pair_at (points_of p.entry.words.now) (points_of q.entry.words.now)) j p.entry.n 0) (held g)) }
{
    let n = p.n;
    let largest = bound(g, k);
    let terms = Terms {
        threshold: 0,
        contractor: 2,
        own: false,
        grid: false,
    };
    chamber::pairs_of(p, q, terms, largest, j, bits);
    let mut r = g;
    let mut i = seeds::scan::next_from(bits, 0);
    // Kept: each step goes to the next kept bit: the loop counts no index.
    while i < n {
        let v = walk::pair::pair_at(p, q, j, i);
        r.offered(k, v, BySize);
        i = seeds::scan::next_from(bits, i + 1);
    }
    r
}

// The k shortest pairs of two sheets that open, chamber after chamber. The words lent are zeros after it.
fn given(p: Sheet<'_>, q: Sheet<'_>, k: usize, bits: &mut [u64]) -> Shortlist
    requires { Holds bits.old p.n × (1 ≤ k) × (k ≤ 16) }
    ensures { (result ≡ short_given p.entry.words.now q.entry.words.now k) × (bits.new ≡ none (length bits.old)) }
{
    let n = q.n;
    let mut g = sorting::Firsts::new(Pair {
        q: 0,
        p: 0,
        size: 0,
    });
    for j in 0..n {
        g = with_chamber(p, q, k, j, g, bits);
    }
    bits::clear(bits);
    let pairs = g.rows;
    Shortlist {
        number: 0,
        count: g.count,
        pairs,
    }
}

// A refused call: its number, and zeros.
fn refused(number: u32) -> Shortlist
    ensures { result ≡ short_refused number }
{
    Shortlist {
        number,
        count: 0,
        pairs: [Pair {
            q: 0,
            p: 0,
            size: 0,
        }; 16],
    }
}

// The k ring pairs with the smallest squared size, in order, ties by q id and then p id; all of them where they are fewer.
// The words lent for kept sets, as many as the points of P need, are zeros after an answer.
// Refused by 1 to 8 of P, then of Q, then by 10 where k is not 1 to 16, then by 24 where fewer words are lent; no word is touched then, nor ever one past them.
pub fn shortest(p: &[i32], q: &[i32], k: usize, bits: &mut [u64]) -> Shortlist
    ensures { (result ≡ short_answer p.now q.now k (length bits.old)) × (bits.new ≡ short_bits p.now q.now k bits.old) }
{
    let a = ring::open::head_of(p);
    if a.number != 0 {
        return refused(a.number);
    }
    let b = ring::open::head_of(q);
    if b.number != 0 {
        return refused(b.number);
    }
    let no = list::size_no(k);
    if no != 0 {
        return refused(no);
    }
    let w = bits::words_for(a.n);
    if bits.len() < w {
        return refused(24);
    }
    let ps = Sheet {
        words: p,
        n: a.n,
        m: a.m,
    };
    let qs = Sheet {
        words: q,
        n: b.n,
        m: b.m,
    };
    given(ps, qs, k, &mut bits[..w])
}
